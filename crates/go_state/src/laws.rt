//! Laws of histories, an event at a time, over every program. The calls do nothing.

ghost use Rattle.go_state.specs.Laws.{HistoriesGrow, HistoriesBegin, ReplaysGrow, OneEnd};

/// A history and an event that has a step after it are a history, which leads to where that step leads; an event of the
/// program can come only where there is no end. What begins a history is one. A history has one end, or none.
pub fn histories_grow()
    ensures grow { HistoriesGrow }
    ensures replay { ReplaysGrow }
    ensures begin { HistoriesBegin }
    ensures end { OneEnd }
{}
