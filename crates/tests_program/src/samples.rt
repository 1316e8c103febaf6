//! The files that calls read, and what is due to them: the samples of samples/tiny and samples/board, the reports and the
//! image of which tests/model makes of their descriptions by the documents alone, and lines that were worked out by hand.

/// The smallest firmware: one compartment that writes a byte to the serial port.
pub const TINY: &str = "\
    {\"firmware\":\"tiny\",\"ram\":{\"base\":2147483648,\"size\":4096},\"devices\":[{\"name\":\"uart\
    0\",\"kind\":\"uart\",\"base\":268435456}],\"compartments\":[{\"name\":\"app\",\"code\":{\"words\
    \":[\"00000297\",\"ff82b283\",\"04100513\",\"00a2a023\",\"00008067\"]},\"imports\":[{\"as\":\"ua\
    rt\",\"device\":\"uart0\",\"rights\":\"W\"}],\"exports\":[{\"name\":\"main\",\"at\":0}]}],\"thre\
    ads\":[{\"name\":\"t\",\"entry\":\"app.main\",\"priority\":1,\"stack\":256,\"frames\":2}]}";

/// Its report.
pub const TINY_REPORT: &str = "\
    {\"compartments\":[\"app\"],\"devices\":[{\"base\":268435456,\"kind\":\"uart\",\"name\":\"uart0\
    \"}],\"edges\":[],\"entries\":[{\"base\":2147483648,\"kind\":\"code\",\"length\":48,\"number\":1\
    ,\"owner\":\"app\",\"rights\":\"GL LG LM LD MC EX\"},{\"base\":2147483728,\"kind\":\"globals\",\
    \"length\":16,\"number\":2,\"owner\":\"app\",\"rights\":\"GL LG SD LM LD MC\"},{\"base\":65536,\
    \"kind\":\"service\",\"length\":8,\"name\":\"switch\",\"number\":3,\"of\":\"switch\",\"owner\":\
    \"app\",\"rights\":\"GL LD MC EX\"},{\"base\":268435456,\"kind\":\"device\",\"length\":16,\"name\
    \":\"uart\",\"number\":4,\"of\":\"uart0\",\"owner\":\"app\",\"rights\":\"GL SD\"},{\"args\":6,\"\
    base\":2147483712,\"kind\":\"export\",\"length\":16,\"name\":\"main\",\"number\":5,\"owner\":\"a\
    pp\",\"passes\":\"capabilities\",\"posture\":\"enabled\",\"rights\":\"GL LD\",\"stack\":0},{\"ba\
    se\":2147483744,\"kind\":\"stack\",\"length\":256,\"number\":6,\"owner\":\"t\",\"rights\":\"LG S\
    D LM SL LD MC\"}],\"firmware\":\"tiny\",\"heap\":{\"base\":2147484304,\"length\":3440},\"librari\
    es\":[],\"quantum\":100,\"threads\":[{\"entry\":5,\"name\":\"t\",\"priority\":1}]}\n";

/// What its run writes after the report.
pub const TINY_LINES: &str = "4 store t0 c0 e4 10000000 4 00000041\n\
    end finished steps 6 ticks 0 calls 0 devices 1 allocations 0 frees 0 traps 0\n";

/// Its image.
pub const TINY_IMAGE: [u8; 412] = [
    0x43, 0x54, 0x46, 0x57, 0x01, 0x00, 0x00, 0x00, 0x01, 0x00, 0x00, 0x00, 0x00, 0x00, 0x00, 0x00,
    0x00, 0x00, 0x00, 0x00, 0x01, 0x00, 0x00, 0x00, 0x00, 0x00, 0x00, 0x00, 0x01, 0x00, 0x00, 0x00,
    0x64, 0x00, 0x00, 0x00, 0x00, 0x00, 0x00, 0x80, 0x00, 0x10, 0x00, 0x00, 0x60, 0x01, 0x00, 0x80,
    0x90, 0x02, 0x00, 0x80, 0x74, 0x69, 0x6e, 0x79, 0x00, 0x00, 0x00, 0x00, 0x00, 0x00, 0x00, 0x00,
    0x00, 0x00, 0x00, 0x00, 0x00, 0x00, 0x00, 0x00, 0x00, 0x00, 0x00, 0x00, 0x00, 0x00, 0x00, 0x00,
    0x00, 0x00, 0x00, 0x00, 0x75, 0x61, 0x72, 0x74, 0x30, 0x00, 0x00, 0x00, 0x00, 0x00, 0x00, 0x00,
    0x00, 0x00, 0x00, 0x00, 0x00, 0x00, 0x00, 0x00, 0x00, 0x00, 0x00, 0x00, 0x00, 0x00, 0x00, 0x00,
    0x00, 0x00, 0x00, 0x00, 0x01, 0x00, 0x00, 0x00, 0x00, 0x00, 0x00, 0x10, 0x61, 0x70, 0x70, 0x00,
    0x00, 0x00, 0x00, 0x00, 0x00, 0x00, 0x00, 0x00, 0x00, 0x00, 0x00, 0x00, 0x00, 0x00, 0x00, 0x00,
    0x00, 0x00, 0x00, 0x00, 0x00, 0x00, 0x00, 0x00, 0x00, 0x00, 0x00, 0x00, 0x00, 0x00, 0x00, 0x80,
    0x30, 0x00, 0x00, 0x00, 0x14, 0x00, 0x00, 0x00, 0x30, 0x00, 0x00, 0x80, 0x50, 0x00, 0x00, 0x80,
    0x10, 0x00, 0x00, 0x00, 0x00, 0x00, 0x00, 0x00, 0x02, 0x00, 0x00, 0x00, 0x01, 0x00, 0x00, 0x00,
    0x01, 0x28, 0x00, 0x00, 0x00, 0x00, 0x00, 0x00, 0x00, 0x00, 0x00, 0x00, 0x00, 0x00, 0x00, 0x00,
    0x73, 0x77, 0x69, 0x74, 0x63, 0x68, 0x00, 0x00, 0x00, 0x00, 0x00, 0x00, 0x00, 0x00, 0x00, 0x00,
    0x00, 0x00, 0x00, 0x00, 0x00, 0x00, 0x00, 0x00, 0x00, 0x00, 0x00, 0x00, 0x00, 0x00, 0x00, 0x00,
    0x02, 0x31, 0x00, 0x00, 0x00, 0x00, 0x00, 0x00, 0x00, 0x00, 0x00, 0x00, 0x00, 0x00, 0x00, 0x00,
    0x75, 0x61, 0x72, 0x74, 0x00, 0x00, 0x00, 0x00, 0x00, 0x00, 0x00, 0x00, 0x00, 0x00, 0x00, 0x00,
    0x00, 0x00, 0x00, 0x00, 0x00, 0x00, 0x00, 0x00, 0x00, 0x00, 0x00, 0x00, 0x00, 0x00, 0x00, 0x00,
    0x00, 0x00, 0x00, 0x00, 0x00, 0x00, 0x00, 0x00, 0x06, 0x03, 0x01, 0x00, 0x05, 0x00, 0x00, 0x00,
    0x6d, 0x61, 0x69, 0x6e, 0x00, 0x00, 0x00, 0x00, 0x00, 0x00, 0x00, 0x00, 0x00, 0x00, 0x00, 0x00,
    0x00, 0x00, 0x00, 0x00, 0x00, 0x00, 0x00, 0x00, 0x00, 0x00, 0x00, 0x00, 0x00, 0x00, 0x00, 0x00,
    0x97, 0x02, 0x00, 0x00, 0x83, 0xb2, 0x82, 0xff, 0x13, 0x05, 0x10, 0x04, 0x23, 0xa0, 0xa2, 0x00,
    0x67, 0x80, 0x00, 0x00, 0x74, 0x00, 0x00, 0x00, 0x00, 0x00, 0x00, 0x00, 0x00, 0x00, 0x00, 0x00,
    0x00, 0x00, 0x00, 0x00, 0x00, 0x00, 0x00, 0x00, 0x00, 0x00, 0x00, 0x00, 0x00, 0x00, 0x00, 0x00,
    0x00, 0x00, 0x00, 0x00, 0x60, 0x00, 0x00, 0x80, 0x00, 0x01, 0x00, 0x00, 0x00, 0x00, 0x00, 0x00,
    0x00, 0x00, 0x00, 0x00, 0x01, 0x00, 0x00, 0x00, 0x02, 0x00, 0x00, 0x00,
];

/// Two compartments, a library, two threads and a heap.
pub const BOARD: &str = "\
    {\"firmware\":\"board\",\"ram\":{\"base\":2147483648,\"size\":4096},\"quantum\":20,\"devices\":[\
    {\"name\":\"uart0\",\"kind\":\"uart\",\"base\":268435456}],\"compartments\":[{\"name\":\"app\",\
    \"code\":{\"file\":\"app.s\"},\"imports\":[{\"as\":\"digit\",\"library\":\"hex.digit\"},{\"as\":\
    \"put\",\"call\":\"driver.put\"},{\"as\":\"allocate\",\"service\":\"allocate\"}],\"quotas\":[{\"\
    name\":\"q\",\"limit\":64}],\"exports\":[{\"name\":\"main\",\"at\":\"main\"}]},{\"name\":\"drive\
    r\",\"code\":{\"file\":\"driver.s\"},\"imports\":[{\"as\":\"uart\",\"device\":\"uart0\",\"rights\
    \":\"W\"}],\"exports\":[{\"name\":\"put\",\"at\":\"put\",\"args\":1,\"passes\":\"data\"}]}],\"li\
    braries\":[{\"name\":\"hex\",\"code\":{\"file\":\"hex.s\"},\"exports\":[{\"name\":\"digit\",\"at\
    \":\"digit\"}]}],\"threads\":[{\"name\":\"t\",\"entry\":\"app.main\",\"priority\":1,\"stack\":25\
    6,\"frames\":2},{\"name\":\"u\",\"entry\":\"app.main\",\"priority\":1,\"stack\":256,\"frames\":2\
    }]}";

pub const APP: &str =
    "main:\n    cmove cs0, cra\n    cimport ca0, q\n    li a1, 24\n    cimport ct2, allocate\n    cjalr cra, ct2\n    li a0, 7\n    cimport ct2, digit\n    cjalr cra, ct2\n    cimport ct1, put\n    cimport ct2, switch\n    cjalr cra, ct2\n    cmove cra, cs0\n    cret\n";

pub const DRIVER: &str = "put:\n    cimport ct0, uart\n    csb a0, 0(ct0)\n    cret\n";

pub const HEX: &str = "digit:\n    addi a0, a0, 48\n    cret\n";

/// Its report.
pub const BOARD_REPORT: &str = "\
    {\"compartments\":[\"app\",\"driver\"],\"devices\":[{\"base\":268435456,\"kind\":\"uart\",\"name\
    \":\"uart0\"}],\"edges\":[],\"entries\":[{\"base\":2147483648,\"kind\":\"code\",\"length\":112,\
    \"number\":1,\"owner\":\"app\",\"rights\":\"GL LG LM LD MC EX\"},{\"base\":2147483792,\"kind\":\
    \"globals\",\"length\":16,\"number\":2,\"owner\":\"app\",\"rights\":\"GL LG SD LM LD MC\"},{\"ba\
    se\":65536,\"kind\":\"service\",\"length\":8,\"name\":\"switch\",\"number\":3,\"of\":\"switch\",\
    \"owner\":\"app\",\"rights\":\"GL LD MC EX\"},{\"base\":2147483888,\"kind\":\"library\",\"length\
    \":16,\"name\":\"digit\",\"number\":4,\"of\":\"hex.digit\",\"owner\":\"app\",\"rights\":\"GL LG \
    LM LD MC EX\"},{\"base\":2147483856,\"kind\":\"call\",\"length\":16,\"name\":\"put\",\"number\":\
    5,\"of\":\"driver.put\",\"owner\":\"app\",\"rights\":\"GL LD\"},{\"base\":65632,\"kind\":\"servi\
    ce\",\"length\":8,\"name\":\"allocate\",\"number\":6,\"of\":\"allocate\",\"owner\":\"app\",\"rig\
    hts\":\"GL LD MC EX\"},{\"base\":2147483680,\"kind\":\"quota\",\"length\":8,\"limit\":64,\"name\
    \":\"q\",\"number\":7,\"owner\":\"app\",\"rights\":\"GL LD\"},{\"args\":6,\"base\":2147483776,\"\
    kind\":\"export\",\"length\":16,\"name\":\"main\",\"number\":8,\"owner\":\"app\",\"passes\":\"ca\
    pabilities\",\"posture\":\"enabled\",\"rights\":\"GL LD\",\"stack\":0},{\"base\":2147483808,\"ki\
    nd\":\"code\",\"length\":32,\"number\":9,\"owner\":\"driver\",\"rights\":\"GL LG LM LD MC EX\"},\
    {\"base\":2147483872,\"kind\":\"globals\",\"length\":16,\"number\":10,\"owner\":\"driver\",\"rig\
    hts\":\"GL LG SD LM LD MC\"},{\"base\":65536,\"kind\":\"service\",\"length\":8,\"name\":\"switch\
    \",\"number\":11,\"of\":\"switch\",\"owner\":\"driver\",\"rights\":\"GL LD MC EX\"},{\"base\":26\
    8435456,\"kind\":\"device\",\"length\":16,\"name\":\"uart\",\"number\":12,\"of\":\"uart0\",\"own\
    er\":\"driver\",\"rights\":\"GL SD\"},{\"args\":1,\"base\":2147483856,\"kind\":\"export\",\"leng\
    th\":16,\"name\":\"put\",\"number\":13,\"owner\":\"driver\",\"passes\":\"data\",\"posture\":\"en\
    abled\",\"rights\":\"GL LD\",\"stack\":0},{\"base\":2147483888,\"kind\":\"code\",\"length\":16,\
    \"number\":14,\"owner\":\"hex\",\"rights\":\"GL LG LM LD MC EX\"},{\"base\":2147483888,\"kind\":\
    \"export\",\"length\":16,\"name\":\"digit\",\"number\":15,\"owner\":\"hex\",\"posture\":\"inheri\
    t\",\"rights\":\"GL LG LM LD MC EX\"},{\"base\":2147483904,\"kind\":\"stack\",\"length\":256,\"n\
    umber\":16,\"owner\":\"t\",\"rights\":\"LG SD LM SL LD MC\"},{\"base\":2147484160,\"kind\":\"sta\
    ck\",\"length\":256,\"number\":17,\"owner\":\"u\",\"rights\":\"LG SD LM SL LD MC\"}],\"firmware\
    \":\"board\",\"heap\":{\"base\":2147485008,\"length\":2736},\"libraries\":[\"hex\"],\"quantum\":\
    20,\"threads\":[{\"entry\":8,\"name\":\"t\",\"priority\":1},{\"entry\":8,\"name\":\"u\",\"priori\
    ty\":1}]}\n";

/// The lines of its run after the report.
pub const BOARD_LINES: [&str; 7] = [
    "8 allocate t0 c0 e7 n1 80000558 24 32\n",
    "20 call t0 c0 e5 e13\n",
    "28 allocate t1 c0 e7 n2 80000578 24 64\n",
    "40 call t1 c0 e5 e13\n",
    "43 store t0 c1 e12 10000000 1 37\n",
    "51 store t1 c1 e12 10000000 1 37\n",
    "end finished steps 56 ticks 2 calls 2 devices 2 allocations 2 frees 0 traps 0\n",
];

/// The smallest firmware, with a source that loads from the serial port.
pub const READS: &str = "\
    {\"firmware\":\"tiny\",\"ram\":{\"base\":2147483648,\"size\":4096},\"devices\":[{\"name\":\"uart\
    0\",\"kind\":\"uart\",\"base\":268435456}],\"compartments\":[{\"name\":\"app\",\"code\":{\"file\
    \":\"reads.s\"},\"imports\":[{\"as\":\"uart\",\"device\":\"uart0\",\"rights\":\"RW\"}],\"exports\
    \":[{\"name\":\"main\",\"at\":\"main\"}]}],\"threads\":[{\"name\":\"t\",\"entry\":\"app.main\",\
    \"priority\":1,\"stack\":256,\"frames\":2}]}";

pub const READS_SOURCE: &str = "main:\ncimport ct0, uart\nclw a0, 0(ct0)\ncret\n";

/// Two compartments with one source.
pub const TWICE: &str = "\
    {\"firmware\":\"tiny\",\"ram\":{\"base\":2147483648,\"size\":4096},\"devices\":[{\"name\":\"uar\
    t0\",\"kind\":\"uart\",\"base\":268435456}],\"compartments\":[{\"name\":\"app\",\"code\":{\"fil\
    e\":\"reads.s\"},\"imports\":[{\"as\":\"uart\",\"device\":\"uart0\",\"rights\":\"RW\"}],\"expor\
    ts\":[{\"name\":\"main\",\"at\":\"main\"}]},{\"name\":\"two\",\"code\":{\"file\":\"reads.s\"},\
    \"imports\":[{\"as\":\"uart\",\"device\":\"uart0\",\"rights\":\"R\"}]}],\"threads\":[{\"name\":\
    \"t\",\"entry\":\"app.main\",\"priority\":1,\"stack\":256,\"frames\":2}]}";

/// The smallest firmware, with a source that breaks a rule in its second line.
pub const FROB: &str = "\
    {\"firmware\":\"tiny\",\"ram\":{\"base\":2147483648,\"size\":4096},\"devices\":[{\"name\":\"uart\
    0\",\"kind\":\"uart\",\"base\":268435456}],\"compartments\":[{\"name\":\"app\",\"code\":{\"file\
    \":\"frob.s\"},\"imports\":[{\"as\":\"uart\",\"device\":\"uart0\",\"rights\":\"W\"}],\"exports\"\
    :[{\"name\":\"main\",\"at\":\"main\"}]}],\"threads\":[{\"name\":\"t\",\"entry\":\"app.main\",\"p\
    riority\":1,\"stack\":256,\"frames\":2}]}";

/// The smallest firmware, with too little RAM.
pub const SMALL: &str = "\
    {\"firmware\":\"tiny\",\"ram\":{\"base\":2147483648,\"size\":640},\"devices\":[{\"name\":\"uart0\
    \",\"kind\":\"uart\",\"base\":268435456}],\"compartments\":[{\"name\":\"app\",\"code\":{\"words\
    \":[\"00000297\",\"ff82b283\",\"04100513\",\"00a2a023\",\"00008067\"]},\"imports\":[{\"as\":\"ua\
    rt\",\"device\":\"uart0\",\"rights\":\"W\"}],\"exports\":[{\"name\":\"main\",\"at\":0}]}],\"thre\
    ads\":[{\"name\":\"t\",\"entry\":\"app.main\",\"priority\":1,\"stack\":256,\"frames\":2}]}";

/// A policy that the board keeps.
pub const POLICY: &str =
    "device uart0 only driver\ncall driver.put only app\napart app driver\nquota app 64\n";
