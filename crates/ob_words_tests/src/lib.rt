//! Tests of words: the program's words, scripts, what is printed.
#![tactic(auto)]

#[cfg(test)]
mod counts;
#[cfg(test)]
mod fixture;
#[cfg(test)]
mod forms;
#[cfg(test)]
mod reports;
#[cfg(test)]
mod scripts;
