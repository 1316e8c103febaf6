//! What is found in the smallest image altered.

ghost use Rattle.std.specs.Prelude.{◌≡◌, length, Some, [], ◌∷◌, ◌++◌, replicate, codes, None};
ghost use Rattle.ct_entry.specs.declared.rows.Mode.TheVariants.{Inherit};
ghost use Rattle.def_image.specs.Spelling.{raw_of, raw_device, raw_thread, raw_gate, name_field};
ghost use Rattle.def_image.specs.Checks.{first};
ghost use Rattle.def_image.specs.Limits.{limit_checks};
ghost use Rattle.def_image.specs.Lying.{region_checks};
ghost use Rattle.def_image.specs.Indexes.{index_checks};
ghost use Rattle.def_image.specs.Rights.{right_checks};
ghost use Rattle.def_image.specs.Parts.{upgraded};
ghost use Rattle.law_image_samples.specs.Tiny.{tiny, app, app_code, the_main, the_switch, the_uart, the_thread, uart0, raw_tiny, raw_app, with_app, with_slots, with_switch, with_uart, with_main, with_thread, raw_with, slot_byte, export_byte, slot_named};

/// The smallest image altered, and where that is found: limits and forms, by a number, a name or padding; regions,
/// devices and the heap that lie where they may not; slots and the thread that name what is not there, or out of order;
/// slots with rights that are not those of their kind; and, of version 2, numbers that differ between the versions, and
/// places that moved.
pub fn tiny_altered()
    ensures devices { first
        (limit_checks (record raw_tiny { devices = replicate 17 (raw_device uart0) }))
        ≡ Some 8 }
    ensures threads { first
        (limit_checks (record raw_tiny { threads = replicate 65 (raw_thread the_thread) }))
        ≡ Some 28 }
    ensures quantum { first (limit_checks (raw_of (record tiny { quantum = 0 }))) ≡ Some 32 }
    ensures ram { first (limit_checks (raw_of (record tiny { ram = 0x80000008 }))) ≡ Some 36 }
    ensures size { first (limit_checks (raw_of (record tiny { size = 240 }))) ≡ Some 40 }
    ensures size_odd { first (limit_checks (raw_of (record tiny { size = 4104 }))) ≡ Some 40 }
    ensures end { first (limit_checks (raw_of (record tiny { ram = 0xfffff000 }))) ≡ Some 40 }
    ensures name { first (limit_checks (raw_of (record tiny { name = codes "Tiny" }))) ≡ Some 52 }
    ensures name_padding { first
        (limit_checks (record raw_tiny { name = codes "tiny" ++ replicate 27 0 ++ 1 ∷ [] }))
        ≡ Some 56 }
    ensures device_name { first
        (limit_checks (raw_of (record tiny { devices = uart0 ∷ uart0 ∷ [] })))
        ≡ Some 124 }
    ensures device_kind { first
        (limit_checks (record raw_tiny {
          devices = record (raw_device uart0) { kind = 4 } ∷ [];
        }))
        ≡ Some 116 }
    ensures code_length { first
        (limit_checks
        (raw_of (with_app (record app { code = record app_code { length = 35 } }))))
        ≡ Some 160 }
    ensures text_words { first
        (limit_checks
        (raw_of (with_app (record app { code = record app_code { text = replicate 21 0 } }))))
        ≡ Some 164 }
    ensures globals_length { first
        (limit_checks (raw_of (with_app (record app { globals_length = 15 }))))
        ≡ Some 176 }
    ensures initial { first
        (limit_checks (raw_of (with_app (record app { initial = replicate 17 0 }))))
        ≡ Some 180 }
    ensures slots { first (limit_checks (raw_of (with_slots []))) ≡ Some 184 }
    ensures exports { first
        (limit_checks
        (raw_with (record raw_app {
          code = record raw_app.code { exports = replicate 65 (raw_gate the_main) };
        })))
        ≡ Some 188 }
    ensures slot_kind { first (limit_checks (slot_byte 1 0 9)) ≡ Some 240 }
    ensures slot_rights { first (limit_checks (slot_byte 1 1 64)) ≡ Some 241 }
    ensures slot_zeros { first (limit_checks (slot_byte 1 3 1)) ≡ Some 242 }
    ensures service { first (limit_checks (slot_byte 0 4 13)) ≡ Some 196 }
    ensures second { first (limit_checks (slot_byte 1 8 1)) ≡ Some 248 }
    ensures third { first (limit_checks (slot_byte 1 15 1)) ≡ Some 252 }
    ensures slot_name { first (limit_checks (slot_named 1 (name_field (codes "switch"))))
        ≡ Some 256 }
    ensures switch_name { first (limit_checks (slot_named 0 (name_field (codes "swatch"))))
        ≡ Some 208 }
    ensures slot_padding { first
        (limit_checks (slot_named 1 (codes "uart" ++ 0 ∷ replicate 27 1)))
        ≡ Some 260 }
    ensures offset { first
        (limit_checks (raw_of (with_main (record the_main.row { offset = 20 }))))
        ≡ Some 288 }
    ensures offset_odd { first
        (limit_checks (raw_of (with_main (record the_main.row { offset = 2 }))))
        ≡ Some 288 }
    ensures export_stack { first
        (limit_checks (raw_of (with_main (record the_main.row { stack = 32753 }))))
        ≡ Some 292 }
    ensures args { first (limit_checks (raw_of (with_main (record the_main.row { args = 7 }))))
        ≡ Some 296 }
    ensures posture { first
        (limit_checks (raw_of (with_main (record the_main.row { posture = Inherit }))))
        ≡ Some 297 }
    ensures passes { first (limit_checks (export_byte 0 10 3)) ≡ Some 298 }
    ensures export_zero { first (limit_checks (export_byte 0 11 1)) ≡ Some 299 }
    ensures entry { first (limit_checks (raw_of (with_main (record the_main.row { entry = 4 }))))
        ≡ Some 300 }
    ensures initial_padding { first
        (limit_checks (raw_with (record raw_app { initial = 1 ∷ []; padding = 0 ∷ 0 ∷ 7 ∷ [] })))
        ≡ Some 357 }
    ensures thread_name { first
        (limit_checks (raw_of (with_thread (record the_thread { name = codes "app" }))))
        ≡ Some 356 }
    ensures stack_length { first
        (limit_checks (raw_of (with_thread (record the_thread { stack_length = 240 }))))
        ≡ Some 392 }
    ensures priority { first
        (limit_checks (raw_of (with_thread (record the_thread { priority = 16 }))))
        ≡ Some 404 }
    ensures frames { first
        (limit_checks (raw_of (with_thread (record the_thread { frames = 97 }))))
        ≡ Some 408 }
    ensures ram_native { first (region_checks (record tiny { ram = 0x10000; trusted = 0x10160 }))
        ≡ Some 36 }
    ensures trusted { first (region_checks (record tiny { trusted = 0x80000168 })) ≡ Some 44 }
    ensures trusted_out { first (region_checks (record tiny { trusted = 0x80000f00 })) ≡ Some 44 }
    ensures heap { first (region_checks (record tiny { heap = 0x80000280 })) ≡ Some 48 }
    ensures heap_odd { first (region_checks (record tiny { heap = 0x80000298 })) ≡ Some 48 }
    ensures heap_out { first (region_checks (record tiny { heap = 0x80001010 })) ≡ Some 48 }
    ensures device_odd { first
        (region_checks (record tiny { devices = record uart0 { base = 8 } ∷ [] }))
        ≡ Some 120 }
    ensures device_ram { first
        (region_checks (record tiny { devices = record uart0 { base = 0x80000ff0 } ∷ [] }))
        ≡ Some 120 }
    ensures device_native { first
        (region_checks (record tiny { devices = record uart0 { base = 0x10ff0 } ∷ [] }))
        ≡ Some 120 }
    ensures device_twice { first (region_checks (record tiny { devices = uart0 ∷ uart0 ∷ [] }))
        ≡ Some 160 }
    ensures code_below { first
        (region_checks (with_app (record app { code = record app_code { base = 0x7ffffff0 } })))
        ≡ Some 156 }
    ensures code_odd { first
        (region_checks (with_app (record app { code = record app_code { length = 40 } })))
        ≡ Some 156 }
    ensures code_heap { first
        (region_checks (with_app (record app { code = record app_code { base = 0x80000270 } })))
        ≡ Some 156 }
    ensures table_meets { first (region_checks (with_app (record app { table = 0x80000020 })))
        ≡ Some 168 }
    ensures globals { first (region_checks (with_app (record app { globals = 0x80000030 })))
        ≡ Some 172 }
    ensures globals_inexact { first
        (region_checks
        (with_app (record (record app { globals = 0x80000810; globals_length = 0x400 })
        { initial = [] })))
        ≡ Some 172 }
    ensures stack { first (region_checks (with_thread (record the_thread { stack = 0x80000050 })))
        ≡ Some 388 }
    ensures index_service { first (index_checks (with_switch (record the_switch.row { first = 2 })))
        ≡ Some 192 }
    ensures switch_kind { first (index_checks (with_switch (record the_uart.row { first = 0 })))
        ≡ Some 192 }
    ensures again { first (index_checks (with_uart the_switch.row)) ≡ Some 240 }
    ensures the_return { first (index_checks (with_uart (record the_switch.row { first = 1 })))
        ≡ Some 240 }
    ensures device { first (index_checks (with_uart (record the_uart.row { first = 1 })))
        ≡ Some 240 }
    ensures compartment { first
        (index_checks (with_thread (record the_thread { compartment = 1 })))
        ≡ Some 396 }
    ensures export { first (index_checks (with_thread (record the_thread { export = 1 })))
        ≡ Some 396 }
    ensures executable { first (right_checks (with_uart (record the_uart.row { rights = 40 })))
        ≡ Some 240 }
    ensures right_service { first
        (right_checks (with_switch (record the_switch.row { rights = 51 })))
        ≡ Some 192 }
    ensures rate { first (limit_checks (raw_of (record (upgraded tiny) { sweep = 0 }))) ≡ Some 52 }
    ensures widest_rate { first (limit_checks (raw_of (record (upgraded tiny) { sweep = 65536 })))
        ≡ None }
    ensures wider_rate { first (limit_checks (raw_of (record (upgraded tiny) { sweep = 65537 })))
        ≡ Some 52 }
    ensures widest_ram { first
        (limit_checks (raw_of (record (upgraded tiny) { ram = 0x80000000; size = 0x4000000 })))
        ≡ None }
    ensures wider_ram { first
        (limit_checks (raw_of (record (upgraded tiny) { size = 0x4000010 })))
        ≡ Some 40 }
    ensures first_ram { first (limit_checks (raw_of (record tiny { size = 0x800010 }))) ≡ Some 40 }
    ensures upgraded_globals { first
        (region_checks (upgraded (with_app (record app { globals = 0x80000030 }))))
        ≡ Some 176 }
{}
