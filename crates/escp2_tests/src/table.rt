//! The ends of each range of the command table, written here by hand.
use escp2_definitions::{Command, RasterHead, in_table};
use printer_definitions::Ink;
use std::process::Abort;

const HEADER: RasterHead = RasterHead {
    c: 0,
    v: 10,
    h: 10,
    m: 1,
    n: 8,
};

const EDGES: [Command; 26] = [
    Command::Init,
    Command::Graphics,
    Command::Unit { m: 1 },
    Command::Unit { m: 255 },
    Command::MicroWeave { n: 0 },
    Command::OneWay { n: 0 },
    Command::OneWay { n: 1 },
    Command::Length { n: 1 },
    Command::Length { n: 32_767 },
    Command::Margins { top: 0, bottom: 1 },
    Command::Margins {
        top: 32_766,
        bottom: 32_767,
    },
    Command::DownTo { n: 0 },
    Command::DownTo { n: 32_767 },
    Command::DownBy { n: 0 },
    Command::DownBy { n: 32_767 },
    Command::Across { n: 0 },
    Command::Across { n: 32_767 },
    Command::Return,
    Command::Eject,
    Command::Colour { ink: Ink::Yellow },
    Command::Raster {
        head: RasterHead { c: 1, ..HEADER },
    },
    Command::Raster {
        head: RasterHead { v: 1, ..HEADER },
    },
    Command::Raster {
        head: RasterHead { h: 255, ..HEADER },
    },
    Command::Raster {
        head: RasterHead { m: 255, ..HEADER },
    },
    Command::Raster {
        head: RasterHead { n: 1, ..HEADER },
    },
    Command::Raster {
        head: RasterHead { n: 8_191, ..HEADER },
    },
];

const PAST_EDGES: [Command; 18] = [
    Command::Unit { m: 0 },
    Command::MicroWeave { n: 1 },
    Command::OneWay { n: 2 },
    Command::Length { n: 0 },
    Command::Length { n: 32_768 },
    Command::Margins { top: 5, bottom: 5 },
    Command::Margins { top: 5, bottom: 4 },
    Command::Margins {
        top: 0,
        bottom: 32_768,
    },
    Command::Margins {
        top: 65_535,
        bottom: 65_535,
    },
    Command::DownTo { n: 32_768 },
    Command::DownBy { n: 32_768 },
    Command::Across { n: 32_768 },
    Command::Raster {
        head: RasterHead { c: 2, ..HEADER },
    },
    Command::Raster {
        head: RasterHead { v: 0, ..HEADER },
    },
    Command::Raster {
        head: RasterHead { h: 0, ..HEADER },
    },
    Command::Raster {
        head: RasterHead { m: 0, ..HEADER },
    },
    Command::Raster {
        head: RasterHead { n: 0, ..HEADER },
    },
    Command::Raster {
        head: RasterHead { n: 8_192, ..HEADER },
    },
];

// Whether each of these commands is in the table.
fn each(rt: &impl Abort, commands: &[Command], wanted: bool) {
    for command in commands {
        assert!(rt; in_table(command) == wanted, "at {command:?}");
    }
}

#[test]
fn the_edges_of_each_range_are_in_the_table(rt: HostRuntime) {
    each(&rt, &EDGES, true);
}

#[test]
fn one_past_each_edge_is_not_in_the_table(rt: HostRuntime) {
    each(&rt, &PAST_EDGES, false);
}
