// No code: these laws say that with the parts of document 02 switched off every bit is what it was.

#![tactic(auto)]
