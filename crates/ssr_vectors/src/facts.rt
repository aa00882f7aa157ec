//! Facts files, and what a provider tells by its tables.

mod files;
mod rows;
mod tables;
