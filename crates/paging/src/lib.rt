// What a pool of shared pages stands for, and the lemmas on it; the code is in `pages`.

#![tactic(auto)]
