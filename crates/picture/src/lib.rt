// A pixel map as a picture: a raw portable bitmap (PBM), and request P5's refusals in words.
#![tactic(auto)]

pub mod printed;
pub mod raster;
pub mod refusal;
