// Whole numbers as mathematics: a solver for equations in rings, divisors, primes. All of it is definitions and lemmas.

#![tactic(auto)]
