// A festival of twenty offers on a main stage and in a tent, under limits and with volunteers.

// The festival as a file of offers.
pub static OFFERS: [u8; 145] = [
    // the number of offers
    20, 0,
    // the weights of offers 0 to 4: 9,800, 7,400, 8,200, 3,100, 6,650
    72, 38, 0, 0, 232, 28, 0, 0, 8, 32, 0, 0, 28, 12, 0, 0, 250, 25, 0, 0,
    // the weights of offers 5 to 9: 5,900, 4,700, 7,050, 2,500, 8,800
    12, 23, 0, 0, 92, 18, 0, 0, 138, 27, 0, 0, 196, 9, 0, 0, 96, 34, 0, 0,
    // the weights of offers 10 to 14: 3,900, 6,100, 5,250, 4,400, 7,700
    60, 15, 0, 0, 212, 23, 0, 0, 130, 20, 0, 0, 48, 17, 0, 0, 20, 30, 0, 0,
    // the weights of offers 15 to 19: 2,950, 6,300, 5,500, 3,600, 4,950
    134, 11, 0, 0, 156, 24, 0, 0, 124, 21, 0, 0, 16, 14, 0, 0, 86, 19, 0, 0,
    // the first rule: limits, of 5 groups
    1, 5,
    // all offers: at most 12
    12, 0, 255, 255, 15,
    // offers 0 to 9, the main stage: at most 6
    6, 0, 255, 3, 0,
    // offers 0 to 3, the morning there: at most 2
    2, 0, 15, 0, 0,
    // offers 10 to 19, the tent: at most 8
    8, 0, 0, 252, 15,
    // offers 16 to 19, the late hours: at most 3
    3, 0, 0, 0, 15,
    // the second rule: 11 volunteers
    2, 11, 0,
    // volunteer 0 can look after offers 0, 1, 2, 3
    15, 0, 0,
    // volunteer 1 can look after offers 0, 4, 5
    49, 0, 0,
    // volunteer 2 can look after offers 1, 6, 7, 8
    194, 1, 0,
    // volunteer 3 can look after offers 2, 9, 10
    4, 6, 0,
    // volunteer 4 can look after offers 4, 9, 11, 12
    16, 26, 0,
    // volunteer 5 can look after offers 5, 13, 14
    32, 96, 0,
    // volunteer 6 can look after offers 8, 14, 15, 16
    0, 193, 1,
    // volunteer 7 can look after offers 3, 11, 16, 17
    8, 8, 3,
    // volunteer 8 can look after offers 6, 12, 18
    64, 16, 4,
    // volunteer 9 can look after offers 7, 10, 13, 19
    128, 36, 8,
    // volunteer 10 can look after offers 15, 17, 18, 19
    0, 128, 14,
];
