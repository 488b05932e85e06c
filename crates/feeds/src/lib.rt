// From the bytes of frequencies.txt to the departures of a trip: specs/ says what holds of file and board together, proofs/ proves it. There is no code here.
#![tactic(auto)]
