//! Drawn histories: a desk beside a plain desk of lists, and client shares beside others' calls.
#![tactic(auto)]

#[cfg(test)]
mod drawn;
#[cfg(test)]
mod own;
#[cfg(test)]
mod pair;
#[cfg(test)]
mod plain;
#[cfg(test)]
mod plain_desk;
#[cfg(test)]
mod playing;
#[cfg(test)]
mod told;
