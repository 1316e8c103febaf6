//! The words that begin a statement of an assembler's source, and the names of registers. The counts
//! say that there are no others: each table has as many rows as it has words here.

ghost use Rattle.std.specs.Prelude.{◌≡◌, [], ◌∷◌, Some, map, length, codes};
ghost use Rattle.std.specs.List.{range_with_len};
ghost use Rattle.def_instr.specs.declared.shapes.BranchOperation.TheVariants as branch;
ghost use Rattle.def_instr.specs.declared.shapes.CapabilityOperation.TheVariants as capability;
ghost use Rattle.def_instr.specs.declared.shapes.ImmediateOperation.TheVariants as immediate;
ghost use Rattle.def_instr.specs.declared.shapes.IntegerOperation.TheVariants as integer;
ghost use Rattle.def_instr.specs.declared.shapes.LoadOperation.TheVariants as load;
ghost use Rattle.def_instr.specs.declared.shapes.RegisterOperation.TheVariants as registers;
ghost use Rattle.def_instr.specs.declared.shapes.ShiftOperation.TheVariants as shift;
ghost use Rattle.def_instr.specs.declared.shapes.SignedOperation.TheVariants as signed;
ghost use Rattle.def_instr.specs.declared.shapes.SourceOperation.TheVariants as source;
ghost use Rattle.def_instr.specs.declared.shapes.StoreOperation.TheVariants as store;
ghost use Rattle.def_instr.specs.declared.shapes.UpperOperation.TheVariants as upper;
ghost use Rattle.def_source.specs.declared.parts.BareOperation.TheVariants as bare;
ghost use Rattle.def_source.specs.declared.reaches.TheConstants.{BRANCH_REACH, JUMP_REACH, MOST_ALIGNMENT};
ghost use Rattle.def_source.specs.declared.words.Directive.TheVariants as directive;
ghost use Rattle.def_source.specs.declared.words.Head.TheVariants as head;
ghost use Rattle.def_source.specs.declared.words.TheConstants.{DIRECTIVES, HEADS, REGISTERS};
ghost use Rattle.def_source.specs.Source.{directive_of, statement_head, register_of};

/// Integer instructions, and branches; 96 words begin a statement in all. Loads and stores, with and without a leading
/// `c`; the three instructions with an upper immediate. Capability instructions: of two registers, of an immediate, and
/// of one source. Jumps, words without operands, pseudo instructions, and directives. And how far back a branch and a
/// jump reach, and the greatest alignment, in bytes.
#[tactic(auto, unfolding(def_source::specs::Source::statement_head, def_source::specs::Source::directive_of))]
pub fn words_of_statements()
    ensures integer_registers { map statement_head
        (codes "add" ∷ codes "sub" ∷ codes "sll" ∷ codes "slt" ∷ codes "sltu" ∷ codes "xor"
        ∷ codes "srl" ∷ codes "sra" ∷ codes "or" ∷ codes "and" ∷ codes "mul" ∷ codes "mulh"
        ∷ codes "mulhsu" ∷ codes "mulhu" ∷ codes "div" ∷ codes "divu" ∷ codes "rem"
        ∷ codes "remu" ∷ [])
        ≡ map (λ o. Some (head.Registers (registers.Integer o)))
        (integer.Add ∷ integer.Sub ∷ integer.Sll ∷ integer.Slt ∷ integer.Sltu ∷ integer.Xor
        ∷ integer.Srl ∷ integer.Sra ∷ integer.Or ∷ integer.And ∷ integer.Mul ∷ integer.Mulh
        ∷ integer.Mulhsu ∷ integer.Mulhu ∷ integer.Div ∷ integer.Divu ∷ integer.Rem
        ∷ integer.Remu ∷ []) }
    ensures integer_immediates { map statement_head
        (codes "addi" ∷ codes "slti" ∷ codes "sltiu" ∷ codes "xori" ∷ codes "ori"
        ∷ codes "andi" ∷ [])
        ≡ map (λ o. Some (head.Immediate (immediate.Signed o)))
        (signed.Addi ∷ signed.Slti ∷ signed.Sltiu ∷ signed.Xori ∷ signed.Ori ∷ signed.Andi ∷ []) }
    ensures shifts { map statement_head (codes "slli" ∷ codes "srli" ∷ codes "srai" ∷ [])
        ≡ map (λ o. Some (head.Immediate (immediate.Shift o)))
        (shift.Slli ∷ shift.Srli ∷ shift.Srai ∷ []) }
    ensures branches { map statement_head
        (codes "beq" ∷ codes "bne" ∷ codes "blt" ∷ codes "bge" ∷ codes "bltu" ∷ codes "bgeu" ∷ [])
        ≡ map (λ o. Some (head.Branch o))
        (branch.Beq ∷ branch.Bne ∷ branch.Blt ∷ branch.Bge ∷ branch.Bltu ∷ branch.Bgeu ∷ []) }
    ensures words { length HEADS ≡ 96 }
    ensures loads { map statement_head
        (codes "lb" ∷ codes "lh" ∷ codes "lw" ∷ codes "clc" ∷ codes "lbu" ∷ codes "lhu" ∷ [])
        ≡ map (λ o. Some (head.Load o))
        (load.Lb ∷ load.Lh ∷ load.Lw ∷ load.Clc ∷ load.Lbu ∷ load.Lhu ∷ []) }
    ensures led_loads { map statement_head
        (codes "clb" ∷ codes "clh" ∷ codes "clw" ∷ codes "clbu" ∷ codes "clhu" ∷ [])
        ≡ map (λ o. Some (head.Load o))
        (load.Lb ∷ load.Lh ∷ load.Lw ∷ load.Lbu ∷ load.Lhu ∷ []) }
    ensures stores { map statement_head (codes "sb" ∷ codes "sh" ∷ codes "sw" ∷ codes "csc" ∷ [])
        ≡ map (λ o. Some (head.Store o)) (store.Sb ∷ store.Sh ∷ store.Sw ∷ store.Csc ∷ []) }
    ensures led_stores { map statement_head (codes "csb" ∷ codes "csh" ∷ codes "csw" ∷ [])
        ≡ map (λ o. Some (head.Store o)) (store.Sb ∷ store.Sh ∷ store.Sw ∷ []) }
    ensures upper { map statement_head (codes "lui" ∷ codes "auipcc" ∷ codes "auicgp" ∷ [])
        ≡ map (λ o. Some (head.Upper o)) (upper.Lui ∷ upper.AuiPcc ∷ upper.AuiCgp ∷ []) }
    ensures capability_registers { map statement_head
        (codes "csetbounds" ∷ codes "csetboundsexact" ∷ codes "cseal" ∷ codes "cunseal"
        ∷ codes "candperm" ∷ codes "csetaddr" ∷ codes "cincaddr" ∷ codes "csub"
        ∷ codes "csethigh" ∷ codes "ctestsubset" ∷ codes "csetequalexact" ∷ [])
        ≡ map (λ o. Some (head.Registers (registers.Capability o)))
        (capability.CSetBounds ∷ capability.CSetBoundsExact ∷ capability.CSeal
        ∷ capability.CUnseal ∷ capability.CAndPerm ∷ capability.CSetAddr ∷ capability.CIncAddr
        ∷ capability.CSub ∷ capability.CSetHigh ∷ capability.CTestSubset
        ∷ capability.CSetEqualExact ∷ []) }
    ensures capability_immediates { map statement_head
        (codes "cincaddrimm" ∷ codes "csetboundsimm" ∷ [])
        ≡ map (λ o. Some (head.Immediate o))
        (immediate.CIncAddrImm ∷ immediate.CSetBoundsImm ∷ []) }
    ensures capability_sources { map statement_head
        (codes "cgetperm" ∷ codes "cgettype" ∷ codes "cgetbase" ∷ codes "cgetlen"
        ∷ codes "cgettag" ∷ codes "crrl" ∷ codes "cram" ∷ codes "cmove" ∷ codes "ccleartag"
        ∷ codes "cgetaddr" ∷ codes "cgethigh" ∷ codes "cgettop" ∷ [])
        ≡ map (λ o. Some (head.Source o))
        (source.CGetPerm ∷ source.CGetType ∷ source.CGetBase ∷ source.CGetLen ∷ source.CGetTag
        ∷ source.Crrl ∷ source.Cram ∷ source.CMove ∷ source.CClearTag ∷ source.CGetAddr
        ∷ source.CGetHigh ∷ source.CGetTop ∷ []) }
    ensures jumps { map statement_head (codes "jal" ∷ codes "cjalr" ∷ [])
        ≡ Some head.Jal ∷ Some head.RegisterJump ∷ [] }
    ensures bare { map statement_head (codes "fence" ∷ codes "ecall" ∷ codes "ebreak" ∷ [])
        ≡ map (λ o. Some (head.Bare o)) (bare.Fence ∷ bare.Ecall ∷ bare.Ebreak ∷ []) }
    ensures pseudo { map statement_head
        (codes "nop" ∷ codes "mv" ∷ codes "j" ∷ codes "cjal" ∷ codes "cret" ∷ codes "cjr"
        ∷ codes "beqz" ∷ codes "bnez" ∷ codes "li" ∷ codes "cimport" ∷ codes "cla"
        ∷ codes "clg" ∷ [])
        ≡ map (λ h. Some h)
        (head.Nop ∷ head.Move ∷ head.Jump ∷ head.JumpAndLink ∷ head.Return ∷ head.JumpRegister
        ∷ head.IfZero ∷ head.IfNotZero ∷ head.LoadImmediate ∷ head.Import ∷ head.TextAddress
        ∷ head.GlobalAddress ∷ []) }
    ensures directives { map directive_of
        (codes "text" ∷ codes "data" ∷ codes "word" ∷ codes "byte" ∷ codes "zero"
        ∷ codes "align" ∷ [])
        ≡ map (λ d. Some d)
        (directive.Text ∷ directive.Data ∷ directive.Word ∷ directive.Byte ∷ directive.Zero
        ∷ directive.Align ∷ []) }
    ensures no_other_directive { length DIRECTIVES ≡ 6 }
    ensures branch_reach { BRANCH_REACH ≡ 4096 }
    ensures jump_reach { JUMP_REACH ≡ 1048576 }
    ensures alignment { MOST_ALIGNMENT ≡ 4096 }
{}

/// Registers by their names, with and without a leading `c`, and by their numbers, also those that
/// this machine hasn't.
#[tactic(auto, unfolding(def_source::specs::Source::register_of))]
pub fn names_of_registers()
    ensures named { map register_of
        (codes "zero" ∷ codes "ra" ∷ codes "sp" ∷ codes "gp" ∷ codes "tp" ∷ codes "t0"
        ∷ codes "t1" ∷ codes "t2" ∷ codes "s0" ∷ codes "s1" ∷ codes "a0" ∷ codes "a1"
        ∷ codes "a2" ∷ codes "a3" ∷ codes "a4" ∷ codes "a5" ∷ [])
        ≡ map (λ n. Some n) (range_with_len 0 16) }
    ensures led { map register_of
        (codes "cnull" ∷ codes "cra" ∷ codes "csp" ∷ codes "cgp" ∷ codes "ctp" ∷ codes "ct0"
        ∷ codes "ct1" ∷ codes "ct2" ∷ codes "cs0" ∷ codes "cs1" ∷ codes "ca0" ∷ codes "ca1"
        ∷ codes "ca2" ∷ codes "ca3" ∷ codes "ca4" ∷ codes "ca5" ∷ [])
        ≡ map (λ n. Some n) (range_with_len 0 16) }
    ensures capability { map register_of
        (codes "c0" ∷ codes "c1" ∷ codes "c2" ∷ codes "c3" ∷ codes "c4" ∷ codes "c5"
        ∷ codes "c6" ∷ codes "c7" ∷ codes "c8" ∷ codes "c9" ∷ codes "c10" ∷ codes "c11"
        ∷ codes "c12" ∷ codes "c13" ∷ codes "c14" ∷ codes "c15" ∷ codes "c16" ∷ codes "c17"
        ∷ codes "c18" ∷ codes "c19" ∷ codes "c20" ∷ codes "c21" ∷ codes "c22" ∷ codes "c23"
        ∷ codes "c24" ∷ codes "c25" ∷ codes "c26" ∷ codes "c27" ∷ codes "c28" ∷ codes "c29"
        ∷ codes "c30" ∷ codes "c31" ∷ [])
        ≡ map (λ n. Some n) (range_with_len 0 32) }
    ensures integer { map register_of
        (codes "x0" ∷ codes "x1" ∷ codes "x2" ∷ codes "x3" ∷ codes "x4" ∷ codes "x5"
        ∷ codes "x6" ∷ codes "x7" ∷ codes "x8" ∷ codes "x9" ∷ codes "x10" ∷ codes "x11"
        ∷ codes "x12" ∷ codes "x13" ∷ codes "x14" ∷ codes "x15" ∷ codes "x16" ∷ codes "x17"
        ∷ codes "x18" ∷ codes "x19" ∷ codes "x20" ∷ codes "x21" ∷ codes "x22" ∷ codes "x23"
        ∷ codes "x24" ∷ codes "x25" ∷ codes "x26" ∷ codes "x27" ∷ codes "x28" ∷ codes "x29"
        ∷ codes "x30" ∷ codes "x31" ∷ [])
        ≡ map (λ n. Some n) (range_with_len 0 32) }
    ensures no_other { length REGISTERS ≡ 96 }
{}
