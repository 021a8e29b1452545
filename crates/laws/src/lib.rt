// What is about numbers, truth values and lists alone, and is used everywhere; most of it are laws (proofs/).
#![tactic(auto)]
