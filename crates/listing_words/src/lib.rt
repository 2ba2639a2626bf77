// No code: this crate has the words of listings, reports and tables as bytes. One definition for each word.

#![tactic(auto)]
