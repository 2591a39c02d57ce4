//! A format, two runs and a crash between them, as one life of a store in memory; and maps that are
//! read back.
#![tactic(auto)]

#[cfg(test)]
mod living;
#[cfg(test)]
mod maps;
#[cfg(test)]
mod plain_maps;
#[cfg(test)]
mod ring_maps;
