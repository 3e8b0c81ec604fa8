// The laws have no code: what they say is in specs/.
#![tactic(auto)]
