//! How many statements of a package ran.
ghost use Rattle.std.specs.Prelude.{◌≡◌, ◌≢◌, ℕ, List, ◌≤◌, ◌<◌, ◌+◌, ◌*◌, ◌^◌, ◌++◌, ◌∷◌, [], OnOk, IfSome, MatchOption, T, drop, ◌==◌, if◌then◌else◌};
ghost use Rattle.std.specs.FinMap as finmap;
ghost use Rattle.std.specs.declared.cmp.Ordering.TheVariants.{Less, Greater};
ghost use Rattle.cov_table.specs.Key.{text_cmp, key_cmp};
ghost use Rattle.cov_table.specs.Unit.{unit_entry};
ghost use Rattle.cov_report.specs.Shares.{units_of, statements_of, covered_of, percent_text, share_text};

use crate::number::push_number;
use cov_outside::NoMemory;
use cov_table::{Unit, Units};
use std::cmp::Ordering;

/// The statements of some units, and those of them that ran. Their sums may pass 64 bits.
#[derive(Clone, Copy, Debug)]
pub struct Share {
    pub covered: u128,
    pub statements: u128,
}

/// No statements.
pub const NOTHING: Share = Share {
    covered: 0,
    statements: 0,
};

/// The statements of a unit that ran, else 0.
pub fn ran(unit: &Unit<'_>) -> u32
    ensures { result ≡ (if unit.now.count == 0 then 0 else unit.now.statements) }
{
    if unit.count == 0 { 0 } else { unit.statements }
}

/// With a unit of the path; none where the unit's path stands behind it.
fn with_unit(share: Share, unit: &Unit<'_>, path: &[u8]) -> Option<Share>
    requires covered { share.covered < 2 ^ 100 }
    requires statements { share.statements < 2 ^ 100 }
    ensures found { MatchOption result (text_cmp unit.now.package_path.now path.now ≡ Greater) (λ more. (text_cmp unit.now.package_path.now path.now ≢ Greater)
        × (more.statements ≡ share.statements + statements_of (units_of path.now (unit_entry unit.now ∷ [])))
        × (more.covered ≡ share.covered + covered_of (units_of path.now (unit_entry unit.now ∷ [])))) }
    ensures small { IfSome result (λ more. (more.statements ≤ share.statements + 2 ^ 32) × (more.covered ≤ share.covered + 2 ^ 32)) }
{
    match unit.package_path.cmp(path) {
        Ordering::Greater => None,
        Ordering::Less => Some(share),
        Ordering::Equal => {
            Some(Share {
                covered: share.covered + u128::from(ran(unit)),
                statements: share.statements + u128::from(unit.statements),
            })
        }
    }
}

/// The share of a package, whose units stand from a place on. The place moves behind them.
pub fn share_of(units: &Units<'_>, at: &mut usize, path: &[u8]) -> Share
    requires { T (finmap.is_sorted key_cmp units.now) }
    ensures statements { result.statements ≡ statements_of (units_of path.now (drop at.old units.now)) }
    ensures covered { result.covered ≡ covered_of (units_of path.now (drop at.old units.now)) }
    ensures small { (result.statements < 2 ^ 100) × (result.covered < 2 ^ 100) }
    ensures later { (q : List ℕ) → text_cmp path.now q ≡ Less → units_of q (drop at.new units.now) ≡ units_of q (drop at.old units.now) }
{
    let mut share = NOTHING;
    for i in *at..units.len() {
        let Some(unit) = units.get(i) else {
            return share;
        };
        let Some(more) = with_unit(share, &unit, path) else {
            return share;
        };
        share = more;
        *at = i + 1;
    }
    share
}

/// Appends a part of a whole in percent, with one decimal.
pub fn push_percent(text: &mut Vec<u8>, covered: u128, statements: u128) -> Result<(), NoMemory>
    requires some { 0 < statements }
    requires small { (statements < 2 ^ 100) × (covered < 2 ^ 100) }
    ensures { OnOk result (text.new.items ≡ text.old.items ++ percent_text covered statements) }
{
    let tenths = (2000 * covered + statements) / (2 * statements);
    push_number(text, tenths / 10)?;
    text.push(b'.')?;
    push_number(text, tenths % 10)?;
    text.push(b'%')?;
    Ok(())
}

/// Appends how much of the statements ran.
pub fn push_share(text: &mut Vec<u8>, share: &Share) -> Result<(), NoMemory>
    requires { (share.now.statements < 2 ^ 100) × (share.now.covered < 2 ^ 100) }
    ensures { OnOk result (text.new.items ≡ text.old.items ++ share_text share.now.covered share.now.statements) }
{
    if share.statements == 0 {
        text.extend_from_slice(b"[no statements]")?;
        return Ok(());
    }
    push_percent(text, share.covered, share.statements)?;
    text.extend_from_slice(b" of statements")?;
    Ok(())
}
