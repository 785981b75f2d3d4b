// What an array holds that a closure made. Lemmas only: there is nothing here to call.
#![tactic(auto)]
