// Laws alone: a line of more than 1,000 bytes is no call, so that ask needs to keep no more of it.

#![tactic(auto)]
