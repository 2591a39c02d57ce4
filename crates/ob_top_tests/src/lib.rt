//! Lives of ring stores, call by call of the top: outputs, statuses and events; and many clients,
//! whose reports are replayed.
#![tactic(auto)]

#[cfg(test)]
mod answers;
#[cfg(test)]
mod drills;
#[cfg(test)]
mod events;
#[cfg(test)]
mod lanes;
#[cfg(test)]
mod limits;
#[cfg(test)]
mod many;
#[cfg(test)]
mod playing;
#[cfg(test)]
mod replay;
#[cfg(test)]
mod shown;
#[cfg(test)]
mod two_epochs;
#[cfg(test)]
mod worked;
