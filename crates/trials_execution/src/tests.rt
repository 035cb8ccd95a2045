// Runs of whole works over stores in memory.
mod events;
