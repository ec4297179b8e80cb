//! Tests of the node over loopback, of what no clause says: that connections are served side by side and to their end, that
//! rounds and notifications go out in their time, what goes over the gate to the byte, and that whoever is silent or slow
//! holds up nobody else.
#![tactic(auto)]

#[cfg(test)]
mod calling;
#[cfg(test)]
mod days;
#[cfg(test)]
mod deletions;
#[cfg(test)]
mod ending;
#[cfg(test)]
mod halting;
#[cfg(test)]
mod jobs;
#[cfg(test)]
mod large;
#[cfg(test)]
mod limits;
#[cfg(test)]
mod loopback;
#[cfg(test)]
mod notices;
#[cfg(test)]
mod paced;
#[cfg(test)]
mod rounds;
#[cfg(test)]
mod sent;
#[cfg(test)]
mod silence;
#[cfg(test)]
mod standin;
