//! How long the input of `json` and `json --back` may be, since both read it whole.

use dmap_stream::Limits;

/// The input may have at most 64 MiB.
pub const INPUT_LIMIT: u64 = 67_108_864;

/// The payload of a top-level tag may be as long as the input.
pub const TAG_LIMITS: Limits = Limits { top: 67_108_864 };
