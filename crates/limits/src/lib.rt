// Document 01's limits and the sizes that follow from them, as constants of the programs.
// specs/Limits.antt has the same numbers as definitions; `agree` is proved, so the two cannot part.
#![tactic(auto)]

ghost use Rattle.std.specs.Prelude.{◌≡◌, ◌≤◌};
ghost use Rattle.limits.specs.Courses.{long, short};
ghost use Rattle.limits.specs.Limits.{most_inputs, most_gates, most_outputs, least_k, most_k, most_count, most_period, most_luts, cover_area, scratch_area, loader_area, contents_area, short_gates, short_k, most_pins, most_items, most_nodes, most_places, most_rows, most_copies, most_reach, most_beyond, most_table, most_list, most_stack, most_held, most_packed, text_room, refusal_room, line_room, input_room, most_steps, bench_input, bench_room};

pub const INPUTS: usize = 16;

pub const GATES: usize = 32;

pub const OUTPUTS: usize = 16;

pub const LEAST_K: u32 = 2;

pub const MOST_K: u32 = 6;

pub const COUNT: usize = 3;

pub const PERIOD: u32 = 32;

pub const LUTS: usize = 32;

pub const AREA: usize = 962;

pub const SCRATCH: usize = 65536;

pub const LOADER: usize = 256;

pub const CONTENTS: usize = 20592;

pub const SHORT_GATES: usize = 8;

pub const SHORT_K: u32 = 4;

pub const STEPS: usize = 65535;

// What follows.
pub const PINS: usize = 6;

pub const ITEMS: usize = (1 << PINS) / 8;

pub const NODES: usize = INPUTS + GATES;

pub const PLACES: usize = PINS * GATES;

pub const ROWS: usize = (2 + 2 * PINS) * LUTS;

pub const COPIES: usize = PINS * GATES;

pub const SLOTS: usize = 6;

pub const REACH: usize = PINS * GATES * COUNT;

pub const BEYOND: usize = COUNT + 1;

pub const TABLE: usize = NODES * (REACH + BEYOND);

pub const LIST: usize = 63 * GATES + 7;

pub const STACK: usize = 28 * GATES + 7;

pub const HELD: usize = (1 + SLOTS) * GATES;

pub const PACKED: usize = (4 + 3 * PINS) * GATES + NODES + 2 * OUTPUTS;

pub const INPUT: usize = 65536;

pub const TEXT: usize = 12288;

pub const ANSWER: usize = 32;

pub const LINE: usize = 68;

pub const BENCH_INPUT: usize = 3 + 65535 + 2 * STEPS;

pub const BENCH_TEXT: usize = STEPS * (1 + OUTPUTS);

// The limits of one byte of a net.
pub const INPUTS_BYTE: u8 = INPUTS as u8;

pub const OUTPUTS_BYTE: u8 = OUTPUTS as u8;

pub const COUNT_BYTE: u8 = COUNT as u8;

// The greatest period as a number of a record.
pub const PERIOD_NUMBER: usize = PERIOD as usize;

// The constants in their order.
#[derive(Drop)]
pub struct Limits {
    pub inputs: usize,
    pub gates: usize,
    pub outputs: usize,
    pub least: u32,
    pub most: u32,
    pub count: usize,
    pub period: u32,
    pub luts: usize,
    pub area: usize,
    pub scratch: usize,
    pub loader: usize,
    pub contents: usize,
    pub short_gates: usize,
    pub short_k: u32,
    pub pins: usize,
    pub items: usize,
    pub nodes: usize,
    pub places: usize,
    pub rows: usize,
    pub copies: usize,
    pub slots: usize,
    pub reach: usize,
    pub beyond: usize,
    pub table: usize,
    pub list: usize,
    pub stack: usize,
    pub held: usize,
    pub packed: usize,
    pub text: usize,
    pub answer: usize,
    pub line: usize,
    pub input: usize,
    pub steps: usize,
    pub bench_input: usize,
    pub bench_text: usize,
}

// The constants are the definitions.
pub fn agree() -> Limits
    ensures inputs { result.inputs ≡ most_inputs }
    ensures gates { result.gates ≡ most_gates }
    ensures outputs { result.outputs ≡ most_outputs }
    ensures least { result.least ≡ least_k }
    ensures most { result.most ≡ most_k }
    ensures count { result.count ≡ most_count }
    ensures period { result.period ≡ most_period }
    ensures luts { result.luts ≡ most_luts }
    ensures area { result.area ≡ cover_area }
    ensures scratch { result.scratch ≡ scratch_area }
    ensures loader { result.loader ≡ loader_area }
    ensures contents { result.contents ≡ contents_area }
    ensures short_gates { result.short_gates ≡ short_gates }
    ensures short_k { result.short_k ≡ short_k }
    ensures pins { result.pins ≡ most_pins }
    ensures items { result.items ≡ most_items }
    ensures nodes { result.nodes ≡ most_nodes }
    ensures places { result.places ≡ most_places }
    ensures rows { result.rows ≡ most_rows }
    ensures copies { result.copies ≡ most_copies }
    ensures slots { result.slots ≡ most_k }
    ensures reach { result.reach ≡ most_reach }
    ensures beyond { result.beyond ≡ most_beyond }
    ensures table { result.table ≡ most_table }
    ensures list { result.list ≡ most_list }
    ensures stack { result.stack ≡ most_stack }
    ensures held { result.held ≡ most_held }
    ensures packed { result.packed ≡ most_packed }
    ensures text { result.text ≡ text_room }
    ensures answer { refusal_room ≤ result.answer }
    ensures line { result.line ≡ line_room }
    ensures input { result.input ≡ input_room }
    ensures steps { result.steps ≡ most_steps }
    ensures bench_input { result.bench_input ≡ bench_input }
    ensures bench_text { result.bench_text ≡ bench_room }
{
    Limits {
        inputs: INPUTS,
        gates: GATES,
        outputs: OUTPUTS,
        least: LEAST_K,
        most: MOST_K,
        count: COUNT,
        period: PERIOD,
        luts: LUTS,
        area: AREA,
        scratch: SCRATCH,
        loader: LOADER,
        contents: CONTENTS,
        short_gates: SHORT_GATES,
        short_k: SHORT_K,
        pins: PINS,
        items: ITEMS,
        nodes: NODES,
        places: PLACES,
        rows: ROWS,
        copies: COPIES,
        slots: SLOTS,
        reach: REACH,
        beyond: BEYOND,
        table: TABLE,
        list: LIST,
        stack: STACK,
        held: HELD,
        packed: PACKED,
        text: TEXT,
        answer: ANSWER,
        line: LINE,
        input: INPUT,
        steps: STEPS,
        bench_input: BENCH_INPUT,
        bench_text: BENCH_TEXT,
    }
}

// The rules of a course: whether numbers take two bytes, the most gates, the greatest k and period, the most LUTs, the bytes of cover area and scratch.
// By value; specs/Courses.antt names the values that are offered.
#[derive(Clone, Copy)]
pub struct Rules {
    pub wide: bool,
    pub gates: usize,
    pub most: u32,
    pub period: u32,
    pub luts: usize,
    pub area: usize,
    pub scratch: usize,
}

// Document 01's own.
pub fn long_course() -> Rules
    ensures { result ≡ long }
{
    Rules {
        wide: false,
        gates: GATES,
        most: MOST_K,
        period: PERIOD,
        luts: LUTS,
        area: AREA,
        scratch: SCRATCH,
    }
}

// Document 02's short course.
pub fn short_course() -> Rules
    ensures { result ≡ short }
{
    Rules {
        wide: false,
        gates: SHORT_GATES,
        most: SHORT_K,
        period: PERIOD,
        luts: LUTS,
        area: AREA,
        scratch: SCRATCH,
    }
}
