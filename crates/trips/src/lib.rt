// The round trips: theorems only, about what rows::read and rows::write promise.
#![tactic(auto)]
