// Laws only: a fuller book never changes a figure (02, R-12).

#![tactic(auto)]
