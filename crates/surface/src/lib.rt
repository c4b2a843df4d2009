// What C gets of an answer (include/viper.h): numbers, and places and records by their numbers.
#![tactic(auto)]

pub mod texts;
pub mod trails;
