// Fields with a weight, as mathematics: what one is, exact fractions and remainders. All of it is definitions and lemmas.

#![tactic(auto)]
