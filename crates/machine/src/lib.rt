// The part of source document 000's machine (fsm.rs) that touches no capture: what each tick does first, Idle, Tx, Collision, becoming Idle, and
// starts. Rx writes captures, so `fsm` has it.
#![tactic(auto)]

ghost use Rattle.std.specs.Prelude.{◌≡◌, ◌+◌, ◌-◌, ◌%◌, ◌<◌, min};
ghost use Rattle.machine.specs.Constants.{public_constants};
ghost use Rattle.machine.specs.Numbers.{bus_state_number, rx_state_number, collision_policy_number};
ghost use Rattle.machine.specs.Runs.{runs_counted};
ghost use Rattle.machine.specs.Idle.{entered, silent, fell, idle_tick};
ghost use Rattle.machine.specs.Sending.{half_bits_in, tx_hb_of, releases_at, watches_of, clash_of, armed_step, tx_step, is_hold, armed, yielded, clashed, held, driven, after_step, tx_tick};
ghost use Rattle.machine.specs.Collision.{broke, collision_tick};
ghost use Rattle.machine.specs.BecomingIdle.{idled};
ghost use Rattle.machine.specs.Starting.{loaded};

use event::PHY_TICK_US;
use halfbits::HalfBitBuffer;

pub const RX_IDLE_LINE_HIGH_TICKS: u8 = 16;

pub const RX_START_DEBOUNCE_TICKS: u8 = 2;

pub const TX_HALF_BIT_TICKS: u32 = 4;

pub const TX_ARM_LEAD_TICKS: u8 = 3;

// IEC 62386-101, Table 25
const COLLISION_BREAK_MIN_US: u32 = 1_200;

// The break must not be shorter, so the ticks are rounded up.
pub const COLLISION_BREAK_TICKS: u8 = ((COLLISION_BREAK_MIN_US + PHY_TICK_US - 1)
    / PHY_TICK_US) as u8;

const COLLISION_CHECK_TICK: u8 = COLLISION_BREAK_TICKS + 2;

const BACKWARD_FRAME_HALF_BITS: u8 = 22;

// Each byte of the store holds eight half-bits.
const STORED_HALF_BITS: u8 = 8 * HalfBitBuffer::DATA_LEN as u8;

// Nobody calls this: its promise says what each public constant is.
fn constants() -> PublicConstants
    ensures { result ≡ public_constants }
{
    PublicConstants {
        rx_idle_line_high_ticks: RX_IDLE_LINE_HIGH_TICKS,
        rx_start_debounce_ticks: RX_START_DEBOUNCE_TICKS,
        tx_half_bit_ticks: TX_HALF_BIT_TICKS,
        tx_arm_lead_ticks: TX_ARM_LEAD_TICKS,
        collision_break_ticks: COLLISION_BREAK_TICKS,
    }
}

#[derive(Drop)]
struct PublicConstants {
    rx_idle_line_high_ticks: u8,
    rx_start_debounce_ticks: u8,
    tx_half_bit_ticks: u32,
    tx_arm_lead_ticks: u8,
    collision_break_ticks: u8,
}

#[derive(Clone, Copy, PartialEq, Eq)]
pub enum BusState {
    Idle = 0,
    Rx = 1,
    Tx = 3,
    CollisionTx = 4,
}

#[derive(Clone, Copy, PartialEq, Eq)]
pub enum RxState {
    Empty = 0,
    Receiving = 1,
    Completed = 2,
}

#[derive(Clone, Copy, PartialEq, Eq)]
pub enum CollisionPolicy {
    Auto = 0,
    Off = 1,
    On = 2,
}

// Nobody calls these three: their promises say what number each case has. A cast has no trait, so each enum has its own.

fn bus_state_number(bus_state: BusState) -> u8
    ensures { result ≡ bus_state_number bus_state }
{
    bus_state as u8
}

fn rx_state_number(rx_state: RxState) -> u8
    ensures { result ≡ rx_state_number rx_state }
{
    rx_state as u8
}

fn collision_policy_number(collision_policy: CollisionPolicy) -> u8
    ensures { result ≡ collision_policy_number collision_policy }
{
    collision_policy as u8
}

// For how many ticks the line has been high, and for how many low.
#[derive(Clone, Copy)]
pub struct Runs {
    pub high_run_ticks: u16,
    pub low_run_ticks: u16,
}

// Becoming Idle sets all of these fields.
#[derive(Clone, Copy)]
pub struct Bus {
    pub idlecnt: u16,
    pub bus_state: BusState,
    pub rx_debounce: u8,
    pub driven_high: bool,
    pub tx_busy: bool,
}

// How far a capture has come, and the silence before it.
#[derive(Clone, Copy)]
pub struct Rx {
    pub rx_pos: u16,
    pub rx_byte: u8,
    pub rx_bit_cnt: u8,
    pub rx_idle: u8,
    pub rx_pre_idle: u8,
}

// What calls report. A start sets all of these fields.
#[derive(Clone, Copy)]
pub struct Told {
    pub tx_pre_idle: u16,
    pub rx_state: RxState,
    pub tx_collision: u8,
    pub tx_idle_after_break: bool,
    pub tx_yielded: bool,
}

// How far the station has sent its frame.
#[derive(Clone, Copy)]
pub struct Tx {
    pub tx_high: u8,
    pub tx_armed: u8,
    pub tx_hb_cnt: u8,
    pub tx_sp_cnt: u8,
    pub tx_answer: bool,
}

// The half-bits to send, the first in the top bit of 64, and their length. Numbers stay in registers, while each tick would copy an array. The length
// is as wide as the half-bits, since the compiler would copy a gap behind it byte by byte.
#[derive(Clone, Copy)]
pub struct TxHb {
    pub tx_hb_bits: u64,
    pub tx_hb_len: u64,
}

// A station without its captures and half-bits. Timing decided the order of the groups and of Tx's fields. No group has a gap between its fields. A
// tick makes a group anew and does not assign to its fields: the compiler then keeps the fields apart.
#[derive(Clone, Copy)]
pub struct Core {
    pub told: Told,
    pub collision_policy: CollisionPolicy,
    pub bus: Bus,
    pub tx: Tx,
    pub rx: Rx,
    pub runs: Runs,
}

// Counters stop at their limit. A sum takes fewer steps than the choice of std's saturating_add, and a loop over ticks shows it. The two widths
// make two functions, since one for both would need a trait with laws.

pub fn saturating_inc16(x: u16) -> u16
    ensures { result ≡ min (x + 1) 65535 }
{
    x + u16::from(x < u16::MAX)
}

pub fn saturating_inc8(x: u8) -> u8
    ensures { result ≡ min (x + 1) 255 }
{
    x + u8::from(x < u8::MAX)
}

impl TxHb {
    // A start keeps the half-bits of a buffer in this form.
    #[tactic(auto, unfolding(crate::specs::Sending::tx_hb_of))]
    pub fn of(halfbits: HalfBitBuffer) -> TxHb
        ensures { result ≡ tx_hb_of halfbits }
    {
        TxHb {
            tx_hb_bits: half_bits_in(halfbits.data),
            tx_hb_len: u64::from(halfbits.length),
        }
    }
}

// The half-bits of the seven bytes, in the top 56 bits of 64.
fn half_bits_in(data: [u8; HalfBitBuffer::DATA_LEN]) -> u64
    ensures { result ≡ half_bits_in «data» }
{
    let mut bits: u64 = 0;
    for byte in data {
        bits = bits * 256 + u64::from(byte);
    }
    bits * 256
}

#[tactic(auto, unfolding(crate::specs::Sending::watches_of))]
fn watches(collision_policy: CollisionPolicy, tx_hb_len: u64) -> bool
    ensures { result ≡ watches_of collision_policy tx_hb_len }
{
    match collision_policy {
        CollisionPolicy::Auto => tx_hb_len != BACKWARD_FRAME_HALF_BITS as u64,
        CollisionPolicy::Off => false,
        CollisionPolicy::On => true,
    }
}

// A half-bit of 0 releases the line.
#[tactic(auto, unfolding(crate::specs::Sending::releases_at))]
fn releases(tx_hb: TxHb, tx_hb_cnt: u8) -> bool
    requires { tx_hb_cnt < 64 }
    ensures { result ≡ releases_at tx_hb tx_hb_cnt }
{
    (tx_hb.tx_hb_bits >> (63 - tx_hb_cnt)) % 2 == 0
}

impl Tx {
    // A clash: the line is low although this station has released it. The station watches only the third and fourth ticks of a half-bit, when
    // `tx_sp_cnt` is 2 and 1.
    #[tactic(auto, unfolding(crate::specs::Sending::clash_of))]
    fn collision_detected(self, policy: CollisionPolicy, tx_hb_len: u64, bus_is_high: bool) -> bool
        ensures { result ≡ clash_of self policy tx_hb_len bus_is_high }
    {
        watches(policy, tx_hb_len)
            && self.tx_high != 0
            && !bus_is_high
            && (self.tx_sp_cnt == 1 || self.tx_sp_cnt == 2)
    }
}

impl Core {
    // Each tick does this before it acts.
    #[tactic(auto, unfolding(crate::specs::Runs::runs_counted, laws::specs::Pick::pick))]
    pub fn count_runs(mut self, bus_is_high: bool) -> Core
        ensures { result ≡ runs_counted self bus_is_high }
    {
        if bus_is_high {
            self.runs = Runs {
                high_run_ticks: saturating_inc16(self.runs.high_run_ticks),
                low_run_ticks: 0,
            };
            return self;
        }
        self.runs = Runs {
            high_run_ticks: 0,
            low_run_ticks: saturating_inc16(self.runs.low_run_ticks),
        };
        self
    }

    // IEC 62386-101, 7.2.2: silence counts from the line's last low tick on, not from becoming Idle.
    #[tactic(auto, unfolding(crate::specs::BecomingIdle::idled))]
    pub fn set_bus_idle(mut self) -> Core
        ensures { result ≡ idled self }
    {
        self.bus = Bus {
            idlecnt: self.runs.high_run_ticks,
            bus_state: BusState::Idle,
            rx_debounce: 0,
            driven_high: true,
            tx_busy: false,
        };
        self
    }

    // The low ticks that the debounce waited for are the first samples of the capture.
    #[tactic(auto, unfolding(crate::specs::Idle::entered))]
    fn start_rx(mut self) -> Core
        ensures { result ≡ entered self }
    {
        self.rx = Rx {
            rx_pos: 0,
            rx_byte: 0,
            rx_bit_cnt: RX_START_DEBOUNCE_TICKS,
            rx_idle: 0,
            rx_pre_idle: self.bus.idlecnt.min(0xFF) as u8,
        };
        self.bus = Bus {
            bus_state: BusState::Rx,
            ..self.bus
        };
        self.told = Told {
            rx_state: RxState::Receiving,
            ..self.told
        };
        self
    }

    #[tactic(auto, unfolding(crate::specs::Idle::idle_tick, laws::specs::Pick::pick))]
    pub fn tick_idle(self, bus_is_high: bool) -> Core
        ensures { result ≡ idle_tick self bus_is_high }
    {
        if bus_is_high {
            return self.count_idle();
        }
        let low = self.debounce();
        if low.bus.rx_debounce < RX_START_DEBOUNCE_TICKS {
            return low;
        }
        low.start_rx()
    }

    // A high tick in Idle.
    #[tactic(auto, unfolding(crate::specs::Idle::silent))]
    pub fn count_idle(mut self) -> Core
        ensures { result ≡ silent self }
    {
        self.bus = Bus {
            idlecnt: saturating_inc16(self.bus.idlecnt),
            rx_debounce: 0,
            ..self.bus
        };
        self
    }

    // A low tick in Idle counts in the debounce.
    #[tactic(auto, unfolding(crate::specs::Idle::fell))]
    fn debounce(mut self) -> Core
        ensures { result ≡ fell self }
    {
        self.bus = Bus {
            rx_debounce: saturating_inc8(self.bus.rx_debounce),
            ..self.bus
        };
        self
    }

    #[tactic(auto, unfolding(crate::specs::Sending::after_step, laws::specs::Pick::pick))]
    fn tick_tx_armed(self, bus_is_high: bool) -> Core
        ensures { result ≡ after_step (armed_step self.tx bus_is_high) self }
    {
        if !bus_is_high && !self.tx.tx_answer {
            return self.yield_tx();
        }
        self.stay_armed()
    }

    // An armed tick that does not yield.
    #[tactic(auto, unfolding(crate::specs::Sending::armed))]
    fn stay_armed(mut self) -> Core
        ensures { result ≡ armed self }
    {
        self.tx = Tx {
            tx_armed: self.tx.tx_armed.saturating_sub(1),
            ..self.tx
        };
        self
    }

    // Another station was first. Its low tick is also Idle's first low tick.
    #[tactic(auto, unfolding(crate::specs::Sending::yielded))]
    fn yield_tx(mut self) -> Core
        ensures { result ≡ yielded self }
    {
        self.told = Told {
            tx_yielded: true,
            ..self.told
        };
        self.tx = Tx {
            tx_armed: 0,
            ..self.tx
        };
        self.set_bus_idle().tick_idle(false)
    }

    #[tactic(auto, unfolding(crate::specs::Sending::clashed))]
    fn enter_collision_tx(mut self) -> Core
        ensures { result ≡ clashed self }
    {
        self.told = Told {
            tx_collision: saturating_inc8(self.told.tx_collision),
            tx_idle_after_break: false,
            ..self.told
        };
        self.tx = Tx {
            tx_sp_cnt: 0,
            ..self.tx
        };
        self.bus = Bus {
            bus_state: BusState::CollisionTx,
            ..self.bus
        };
        self
    }

    // Whether this tick of Tx only goes on with a half-bit, as most ticks do. The tests are those of `tick_tx`, told apart so that a lent tick that
    // holds stores one group.
    #[tactic(auto, unfolding(crate::specs::Sending::tx_step, crate::specs::Sending::is_hold, laws::specs::Pick::pick))]
    pub fn holds(self, tx_hb: TxHb, bus_is_high: bool) -> bool
        ensures { result ≡ is_hold (tx_step self.tx self.collision_policy tx_hb bus_is_high) }
    {
        let policy = self.collision_policy;
        let len = tx_hb.tx_hb_len;
        if self.tx.tx_armed != 0 {
            return false;
        }
        if len <= self.tx.tx_hb_cnt as u64 {
            return false;
        }
        if self.tx.collision_detected(policy, len, bus_is_high) {
            return false;
        }
        self.tx.tx_sp_cnt != 0
    }

    // The half-bit goes on for one tick.
    #[tactic(auto, unfolding(crate::specs::Sending::held))]
    pub fn hold_half_bit(mut self) -> Core
        ensures { result ≡ held self }
    {
        self.tx = Tx {
            tx_sp_cnt: self.tx.tx_sp_cnt.saturating_sub(1),
            ..self.tx
        };
        self
    }

    // The first tick of a half-bit.
    #[tactic(auto, unfolding(crate::specs::Sending::driven))]
    fn drive_half_bit(mut self, high: bool) -> Core
        ensures { result ≡ driven self high }
    {
        self.bus = Bus {
            driven_high: high,
            ..self.bus
        };
        self.tx = Tx {
            tx_hb_cnt: self.tx.tx_hb_cnt.wrapping_add(1),
            tx_sp_cnt: TX_HALF_BIT_TICKS as u8 - 1,
            tx_high: high as u8,
            ..self.tx
        };
        self
    }

    // The first rule that fits decides.
    #[tactic(auto, unfolding(crate::specs::Sending::tx_tick, crate::specs::Sending::tx_step, crate::specs::Sending::after_step, laws::specs::Pick::pick))]
    pub fn tick_tx(self, tx_hb: TxHb, bus_is_high: bool) -> Core
        ensures { result ≡ tx_tick self tx_hb bus_is_high }
    {
        let policy = self.collision_policy;
        let len = tx_hb.tx_hb_len;
        if self.tx.tx_armed != 0 {
            return self.tick_tx_armed(bus_is_high);
        }
        if len <= self.tx.tx_hb_cnt as u64 {
            return self.set_bus_idle();
        }
        if self.tx.collision_detected(policy, len, bus_is_high) {
            return self.enter_collision_tx();
        }
        if self.tx.tx_sp_cnt != 0 {
            return self.hold_half_bit();
        }
        if STORED_HALF_BITS <= self.tx.tx_hb_cnt {
            return self.set_bus_idle();
        }
        self.drive_half_bit(releases(tx_hb, self.tx.tx_hb_cnt))
    }

    // IEC 62386-101, 9.1.4: a station that finds the line high after its break may go first.
    #[tactic(auto, unfolding(crate::specs::Collision::broke, laws::specs::Pick::pick))]
    fn leave_collision_tx(mut self, bus_is_high: bool) -> Core
        ensures { result ≡ broke self bus_is_high }
    {
        self.told = Told {
            tx_idle_after_break: bus_is_high,
            ..self.told
        };
        let idle = self.set_bus_idle();
        if bus_is_high {
            return idle;
        }
        idle.tick_idle(false)
    }

    #[tactic(auto, unfolding(crate::specs::Collision::collision_tick, laws::specs::Pick::pick))]
    pub fn tick_collision_tx(mut self, bus_is_high: bool) -> Core
        ensures { result ≡ collision_tick self bus_is_high }
    {
        let ticks = self.tx.tx_sp_cnt.wrapping_add(1);
        self.tx = Tx {
            tx_sp_cnt: ticks,
            ..self.tx
        };
        if COLLISION_CHECK_TICK <= ticks {
            return self.leave_collision_tx(bus_is_high);
        }
        self.bus = Bus {
            driven_high: COLLISION_BREAK_TICKS < ticks,
            ..self.bus
        };
        self
    }

    // A start that is not refused.
    #[tactic(auto, unfolding(crate::specs::Starting::loaded))]
    pub fn load_tx(mut self, answer: bool) -> Core
        ensures { result ≡ loaded self answer }
    {
        self.bus = Bus {
            bus_state: BusState::Tx,
            tx_busy: true,
            ..self.bus
        };
        self.told = Told {
            tx_pre_idle: self.bus.idlecnt,
            rx_state: RxState::Empty,
            tx_collision: 0,
            tx_idle_after_break: false,
            tx_yielded: false,
        };
        self.tx = Tx {
            tx_hb_cnt: 0,
            tx_sp_cnt: 0,
            tx_armed: TX_ARM_LEAD_TICKS,
            tx_answer: answer,
            ..self.tx
        };
        self
    }
}
