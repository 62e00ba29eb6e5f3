// Rankings: rounds, strict rankings and strong level rankings of a set of atoms, and what they say of stable sets.
#![tactic(auto)]
