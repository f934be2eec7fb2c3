//! Desks.
mod desk;
