// No code: this crate has demand 3 for journeys with moves to other centres at named moments.

#![tactic(auto)]
