// What was asked of the machine, each sentence stated once and proved: no code. specs/ has the statements, proofs/ gives them from the
// crates below; nothing stands above. docs/PROMISES.md leads from each sentence to its theorem.
// It carries what is owed of the machine as a whole: refusals and their order (RULES 7.1, 7.2, 7.5, 7.6), what the definitions shut out
// (9.4), forgotten readers and the report (8.4, 8.5), independent neighbours (8.6), the chain of sums and the sized flags (2.11 to 2.14),
// text read back (6.10 to 6.12), and the examples (10.1 to 10.12).
#![tactic(auto)]
