//! Sources by hand: whether the checker accepts them, and else what their first fault is and where it stands.
#![tactic(auto)]

#[cfg(test)]
mod calls;
#[cfg(test)]
mod checking;
#[cfg(test)]
mod constants;
#[cfg(test)]
mod counts;
#[cfg(test)]
mod declarations;
#[cfg(test)]
mod endings;
#[cfg(test)]
mod labels;
#[cfg(test)]
mod loading;
#[cfg(test)]
mod members;
#[cfg(test)]
mod modules;
#[cfg(test)]
mod orders;
#[cfg(test)]
mod scopes;
#[cfg(test)]
mod switches;
#[cfg(test)]
mod types;
#[cfg(test)]
mod unused;
