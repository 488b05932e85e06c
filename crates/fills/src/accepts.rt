// From an accepted verdict to what the writing relies on, and from what is written to the call's equation: theorems, no code.
