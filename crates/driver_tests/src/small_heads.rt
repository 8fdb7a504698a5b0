//! Tests of `run` over every small head: in interleaved and in shingled passes, and around every set of dead nozzles. A
//! slow reader counts where each nozzle fires, and shares no code with the driver.
mod heads;
mod shots;
