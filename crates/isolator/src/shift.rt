use lifts::Lift;

// The lifts of the first shift in service, which began 21,600 seconds after the commissioning.
pub(crate) fn lifts() -> [Lift; 12] {
    [
        Lift::without_flags(1, 22_500, 940, 1_250, 4_200),
        Lift::without_flags(2, 24_930, 1_815, 3_200, 6_750),
        Lift::without_flags(3, 27_900, 78, 480, 1_100),
        Lift::without_flags(4, 28_800, 1_212, 2_900, 6_750),
        Lift::without_flags(5, 31_500, 365, 1_900, 3_050),
        Lift::without_flags(6, 33_300, 620, 750, 5_400),
        Lift::without_flags(7, 36_000, 154, 2_250, 900),
        Lift::without_flags(8, 37_800, 1_005, 3_150, 6_750),
        Lift::without_flags(9, 41_400, 480, 1_250, 4_200),
        Lift::without_flags(10, 43_200, 2_040, 3_400, 6_750),
        Lift::without_flags(11, 47_700, 95, 320, 1_100),
        Lift::without_flags(12, 49_500, 710, 2_600, 5_400),
    ]
}
