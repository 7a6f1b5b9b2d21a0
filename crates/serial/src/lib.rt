// No code: the machine's definitions agree with one plain memory, and keep a sound state sound.

#![tactic(auto)]
