//! Trials of the parts and of the whole, from text to text, against numbers that were worked out by hand.
#![tactic(auto)]

#[cfg(test)]
mod code;
#[cfg(test)]
mod cutting;
#[cfg(test)]
mod entries;
#[cfg(test)]
mod evaluating;
#[cfg(test)]
mod events;
#[cfg(test)]
mod instructions;
#[cfg(test)]
mod lent;
#[cfg(test)]
mod listing_texts;
#[cfg(test)]
mod machine;
#[cfg(test)]
mod message_texts;
#[cfg(test)]
mod needs;
#[cfg(test)]
mod plays;
#[cfg(test)]
mod refusals;
#[cfg(test)]
mod requests;
#[cfg(test)]
mod retaining;
#[cfg(test)]
mod rooms;
#[cfg(test)]
mod script_plays;
#[cfg(test)]
mod telling;
#[cfg(test)]
mod texts;
