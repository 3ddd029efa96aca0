//! Sizes of which there is a shape: what it is, takes and holds.
use super::rows::{Sizes, bytes, counts, objects, parts, wanted};
use cache_sizes::Shape;
use std::test::Fail;

#[derive(Clone, Copy)]
struct Row {
    sizes: Sizes,
    parts: [u32; 8],
    counts: [u64; 3],
    bytes: [u64; 3],
    objects: [u64; 4],
}

static ROWS: [Row; 13] = [
    // 12 GiB and 1 GiB for objects of 100 bytes and 8 threads: 128 lanes of 96 MiB.
    Row {
        sizes: (12_884_901_888, 1_073_741_824, 100, 8),
        parts: [8, 16, 23_351, 136, 9, 50_301, 18_500, 5837],
        counts: [128, 1224, 24_575],
        bytes: [12_884_377_600, 363_331_456, 1_073_731_456],
        objects: [2_368_000, 5_640_192, 100_069_309, 108_077_501],
    },
    // The least flash, one thread, and just the memory for one of the largest objects.
    Row {
        sizes: (12_288, 36_040, 2303, 1),
        parts: [1, 1, 1, 2, 1, 5, 1, 1024],
        counts: [1, 2, 3],
        bytes: [12_288, 33_537, 36_040],
        objects: [1, 2, 0, 3],
    },
    // A page more is not used: the number of sets stays odd.
    Row {
        sizes: (16_384, 36_376, 100, 1),
        parts: [1, 1, 1, 2, 1, 162, 1, 1024],
        counts: [1, 2, 3],
        bytes: [12_288, 36_049, 36_349],
        objects: [1, 72, 33, 106],
    },
    // The fourth segment that a lane of 80 pages has.
    Row {
        sizes: (327_680, 1_000_000, 100, 1),
        parts: [1, 1, 75, 4, 1, 243, 3188, 1024],
        counts: [1, 4, 79],
        bytes: [323_584, 43_339, 999_739],
        objects: [3188, 144, 2511, 5843],
    },
    // A page short of two lanes of 1,024.
    Row {
        sizes: (8_384_512, 10_000_000, 100, 1),
        parts: [1, 1, 1945, 102, 1, 4212, 32_472, 1024],
        counts: [1, 102, 2047],
        bytes: [8_384_512, 258_313, 9_999_913],
        objects: [32_472, 3672, 65_118, 101_262],
    },
    // Two lanes of 1,024.
    Row {
        sizes: (8_388_608, 10_000_000, 100, 1),
        parts: [1, 2, 973, 51, 1, 2147, 16_178, 1024],
        counts: [2, 51, 1024],
        bytes: [8_388_608, 293_082, 9_999_882],
        objects: [32_356, 3672, 65_152, 101_180],
    },
    // 1 GiB and 128 MiB: 16 lanes for each thread.
    Row {
        sizes: (1_073_741_824, 134_217_728, 100, 8),
        parts: [8, 16, 1945, 102, 1, 4212, 2634, 1024],
        counts: [128, 102, 2047],
        bytes: [1_073_217_536, 33_064_064, 134_209_664],
        objects: [337_152, 470_016, 8_335_180, 9_142_348],
    },
    // 16 lanes are one shard.
    Row {
        sizes: (67_108_864, 1_073_741_824, 100, 4),
        parts: [1, 16, 973, 51, 1, 2147, 223_207, 1024],
        counts: [16, 51, 1024],
        bytes: [67_108_864, 2_344_656, 1_073_738_256],
        objects: [3_571_312, 29_376, 521_216, 4_121_904],
    },
    // 17 are two, of 16 each.
    Row {
        sizes: (71_303_168, 1_073_741_824, 100, 5),
        parts: [2, 16, 517, 27, 1, 1175, 111_534, 1024],
        counts: [32, 27, 544],
        bytes: [71_303_168, 3_009_696, 1_073_736_096],
        objects: [3_569_088, 31_104, 553_893, 4_154_085],
    },
    // Memory without end: objects as many as a lane may have.
    Row {
        sizes: (1_073_741_824, u64::MAX, 1, 1),
        parts: [1, 16, 15_567, 136, 6, 59_616, 1_048_576, 3891],
        counts: [16, 816, 16_383],
        bytes: [1_073_676_288, 37_041_520, 3_409_261_936],
        objects: [16_777_216, 835_584, 29_649_530, 47_262_330],
    },
    // 64 GiB.
    Row {
        sizes: (68_719_476_736, 8_589_934_592, 100, 32),
        parts: [32, 16, 31_135, 136, 12, 67_068, 43_326, 7783],
        counts: [512, 1632, 32_767],
        bytes: [68_717_379_584, 1_934_986_752, 8_589_860_352],
        objects: [22_182_912, 30_081_024, 533_708_697, 585_972_633],
    },
    // 4 TiB: the lanes have all the sets that they may have.
    Row {
        sizes: (4_398_046_511_104, 1_099_511_627_776, 100, 64),
        parts: [973, 16, 65_535, 132, 26, 141_102, 208_947, 16_383],
        counts: [15_568, 3432, 68_967],
        bytes: [4_397_786_136_576, 123_644_403_120, 1_099_510_471_920],
        objects: [3_252_886_896, 1_923_457_536, 34_157_932_502, 39_334_276_934],
    },
    // The most flash, and the most threads.
    Row {
        sizes: (4_629_452_005_375, 1_125_899_906_842_624, 100, 4096),
        parts: [1024, 16, 65_535, 132, 26, 141_102, 1_048_576, 16_383],
        counts: [16_384, 3432, 68_967],
        bytes: [4_628_297_023_488, 130_125_250_560, 5_284_086_005_760],
        objects: [
            17_179_869_184,
            2_024_275_968,
            35_948_327_731,
            55_152_472_883,
        ],
    },
];

// Whether these sizes have the shape of the row, and a configuration accepts it.
fn is_met(row: &Row) -> Result<bool, Fail> {
    let shape = Shape::of(&wanted(row.sizes))?;
    let _layout = shape.config(2, 65536).check()?;
    Ok(
        parts(&shape) == row.parts
            && counts(&shape) == row.counts
            && bytes(&shape, row.sizes.2) == row.bytes
            && objects(&shape, row.sizes.2) == row.objects,
    )
}

#[test]
fn sizes_have_their_shapes(rt: HostRuntime) -> Result<(), Fail> {
    for (number, row) in ROWS.iter().enumerate() {
        assert!(rt; is_met(row)?, "row {number}");
    }
    Ok(())
}
