// What is promised of the model, as theorems. specs/ has the words that they use, proofs/ the theorems: proofs/Promise*.antt are to be read, the
// other files are the arguments behind them. There is no code here.
#![tactic(auto)]
