//! Slabs of a window, by one worker and by two.
use crate::windows::{Case, is_right};
use diffusion_kernel::Kernel;
use worker_team::OpenGate;

const KERNELS: [Kernel; 3] = [Kernel::Floyd, Kernel::Jarvis, Kernel::Stucki];

#[test]
fn slabs_have_the_dots_of_the_whole_window(rt: HostRuntime) {
    for &kernel in &KERNELS {
        for (width, inks) in [(1, 1), (2, 3), (63, 1), (66, 4), (130, 2), (200, 1)] {
            let case = Case::mixed(kernel, width, inks, &[64, 32, 39]);
            is_right(&rt, rt.alloc(), &case, 2, &OpenGate);
        }
    }
    // errors cross the border of slabs at row 256
    let case = Case {
        all: Some(0x64),
        ..Case::mixed(Kernel::Floyd, 1, 1, &[256, 1])
    };
    is_right(&rt, rt.alloc(), &case, 1, &OpenGate);
}

#[test]
fn a_slab_has_the_dots_of_rows_one_after_another(rt: HostRuntime) {
    const SIZES: [(u32, &[u32], u8); 9] = [
        (1, &[1], 1),
        (3, &[70], 4),
        (31, &[33], 2),
        (64, &[32], 1),
        (65, &[31], 3),
        (127, &[64], 1),
        (128, &[65], 2),
        (191, &[7], 1),
        (199, &[70], 1),
    ];
    for &kernel in &KERNELS {
        for &(width, slabs, inks) in &SIZES {
            for all in [None, Some(0), Some(127), Some(128), Some(255)] {
                let case = Case {
                    all,
                    ..Case::mixed(kernel, width, inks, slabs)
                };
                is_right(&rt, rt.alloc(), &case, 1, &OpenGate);
            }
        }
    }
}

#[test]
fn slabs_below_extreme_errors_have_the_dots_and_bottom_edges_of_the_rule(rt: HostRuntime) {
    const HEIGHTS: [&[u32]; 5] = [&[1], &[31], &[32], &[33], &[64]];
    for &kernel in &KERNELS {
        for width in [1, 63, 64, 65, 130] {
            for &slabs in &HEIGHTS {
                for error in [-2040, 0, 2039] {
                    let case = Case {
                        error,
                        ..Case::mixed(kernel, width, 1, slabs)
                    };
                    is_right(&rt, rt.alloc(), &case, 1, &OpenGate);
                }
            }
        }
    }
}
