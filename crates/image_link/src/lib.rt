//! Links objects to the image of a program.
#![tactic(auto)]

mod ends;
mod filling;
mod globals;
mod laid;
mod linking;
mod outside;
mod placing;
mod regions;
mod symbols;

pub use linking::link_image;
