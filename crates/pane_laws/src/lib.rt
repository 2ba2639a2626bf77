// No code: this crate has what a night desk may rely on, for all its runs, moves, books and calls of the pane.

#![tactic(auto)]
