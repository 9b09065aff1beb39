use lifts::Lift;

// The lifts of the first two days in service.
pub(crate) fn lifts() -> [Lift; 15] {
    [
        Lift::without_flags(1, 25_200, 940, 1_250, 4_200),
        Lift::without_flags(2, 27_930, 1_815, 3_200, 6_750),
        Lift::without_flags(3, 36_000, 78, 480, 1_100),
        Lift::without_flags(4, 41_400, 1_212, 2_900, 6_750),
        Lift::without_flags(5, 44_100, 365, 1_900, 3_050),
        Lift::without_flags(6, 46_800, 620, 750, 5_400),
        Lift::without_flags(7, 50_400, 154, 2_250, 900),
        Lift::without_flags(8, 53_100, 1_005, 3_150, 6_750),
        Lift::without_flags(9, 111_600, 480, 1_250, 4_200),
        Lift::without_flags(10, 113_400, 2_040, 3_400, 6_750),
        Lift::without_flags(11, 117_900, 95, 320, 1_100),
        Lift::without_flags(12, 122_400, 710, 2_600, 5_400),
        Lift::without_flags(13, 127_800, 333, 1_600, 3_050),
        Lift::without_flags(14, 131_400, 1_490, 2_950, 6_750),
        Lift::without_flags(15, 136_800, 215, 640, 2_000),
    ]
}
