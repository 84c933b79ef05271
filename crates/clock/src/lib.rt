// From src/clock.rs: hybrid clocks for total order, vector clocks for causal history.
#![tactic(auto)]

pub mod hybrid; // the hybrid logical clock of Kulkarni et al.
pub mod raw; // what the crates above use of a vector clock that is known to keep its rules
pub mod stamp; // a stamp and its order
pub mod vector; // the vector clock of Fidge and Mattern
