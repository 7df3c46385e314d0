//! That public calls of the libraries succeed, and rows of data beside their contracts.
mod answers;
mod attributes;
mod configurations;
mod directories;
mod entries;
mod filters;
mod messages;
mod networks;
mod registries;
mod rules;
mod services;
mod streams;
mod templates;
mod texts;
