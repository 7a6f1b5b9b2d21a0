// No code: one plain memory, and the theorem that a machine with private caches agrees with it.

#![tactic(auto)]
