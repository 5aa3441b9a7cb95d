// Listings: a crossbar's text, printed and loaded.
#![tactic(auto)]

pub mod loading;
pub mod printing;
mod sizes;
