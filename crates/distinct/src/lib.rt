// How long a row of different numbers can be. Lemmas only: there is nothing here to call.
#![tactic(auto)]
