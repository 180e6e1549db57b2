// The numbers that stand among a node's facts, and the fields that a map may lack.
// Stays numbers: they are words of nodes in memory that C lends and reads, and include/spoonharbor.h names them.
ghost use Rattle.std.specs.Prelude.{◌≡◌};
ghost use Rattle.rules.specs.Names.{facts};

// The types of maps.
pub const MAP_HASH: u32 = 1;

pub const MAP_ARRAY: u32 = 2;

pub const MAP_RINGBUF: u32 = 3;

pub const MAP_LRU_HASH: u32 = 4;

pub const MAP_PROG_ARRAY: u32 = 5;

// The types of keys, values and elements.
pub const TYPE_U32: u32 = 1;

pub const TYPE_U64: u32 = 2;

pub const TYPE_I32: u32 = 3;

pub const TYPE_I64: u32 = 4;

// The forms of an event's fields.
pub const FORM_PLAIN: u32 = 1;

pub const FORM_BYTES: u32 = 2;

pub const FORM_ARRAY: u32 = 3;

// A map's fields.
pub const FIELD_TYPE: u32 = 1;

pub const FIELD_KEY: u32 = 2;

pub const FIELD_VALUE: u32 = 3;

pub const FIELD_MAX: u32 = 4;

// The kinds of programs.
pub const PROGRAM_XDP: u32 = 0;

pub const PROGRAM_TC: u32 = 1;

pub const PROGRAM_SOCKET: u32 = 2;

pub const PROGRAM_CGROUP: u32 = 3;

pub const PROGRAM_KPROBE: u32 = 4;

pub const PROGRAM_TRACEPOINT: u32 = 5;

pub const PROGRAM_RAW_TRACEPOINT: u32 = 6;

pub const PROGRAM_FENTRY: u32 = 7;

pub const PROGRAM_FEXIT: u32 = 8;

pub const PROGRAM_LSM: u32 = 9;

pub const PROGRAM_UNKNOWN: u32 = 10;

// All of them are the definitions'.
pub fn all() -> [u32; 27]
    ensures { result ≡ facts }
{
    [
        MAP_HASH,
        MAP_ARRAY,
        MAP_RINGBUF,
        MAP_LRU_HASH,
        MAP_PROG_ARRAY,
        TYPE_U32,
        TYPE_U64,
        TYPE_I32,
        TYPE_I64,
        FORM_PLAIN,
        FORM_BYTES,
        FORM_ARRAY,
        FIELD_TYPE,
        FIELD_KEY,
        FIELD_VALUE,
        FIELD_MAX,
        PROGRAM_XDP,
        PROGRAM_TC,
        PROGRAM_SOCKET,
        PROGRAM_CGROUP,
        PROGRAM_KPROBE,
        PROGRAM_TRACEPOINT,
        PROGRAM_RAW_TRACEPOINT,
        PROGRAM_FENTRY,
        PROGRAM_FEXIT,
        PROGRAM_LSM,
        PROGRAM_UNKNOWN,
    ]
}
