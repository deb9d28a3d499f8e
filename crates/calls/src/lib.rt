// What is promised of calls of the public functions, as theorems: the promises of the definitions, carried over to the code by its contracts. specs/ has
// the words, proofs/Promise8Code.antt is to be read. There is no code here.
#![tactic(auto)]
